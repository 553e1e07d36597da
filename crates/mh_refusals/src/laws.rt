//! What a list of all that is wrong says.
ghost use Rattle.mh_refusals.specs.Laws.{EachPlaceIsListed, FirstIsTheVerifiers, ListedIsWrong, PlacesRise};

/// The law that what stands first in the list is what comes first of all that is wrong, as the verifier names it.
pub fn first_is_the_verifiers()
    ensures { FirstIsTheVerifiers }
{}

/// The law that all that is listed is wrong in a configuration that is reached.
pub fn listed_is_wrong()
    ensures { ListedIsWrong }
{}

/// The law that each place that is wrong is listed, with what comes first there, where the list is not cut short.
pub fn each_place_is_listed()
    ensures { EachPlaceIsListed }
{}

/// The law that each place of the list stands before the next.
pub fn places_rise()
    ensures { PlacesRise }
{}
