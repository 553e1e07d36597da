//! What follows from an action beforehand, against its rule.
ghost use Rattle.mh_laws.specs.Describing.{PutsWhatItCan, PutsByItsRule, HandsOnWhatItSays, ListsWhatItSays, AnswersItems};
ghost use Rattle.mh_laws.specs.Describing.{EmitsWhatIsListed, ListsWhatIsEmitted};
ghost use Rattle.mh_laws.specs.Ways.{PutsAWay};

/// The law that what an action puts is of the pieces that its description lists, and that its rule puts just
/// that.
pub fn puts_what_it_can()
    ensures pieces { PutsWhatItCan }
    ensures rule { PutsByItsRule }
{}

/// The law that an action hands on no reference but those that its description says, to a variable or a
/// list, and answers none but the items of the list that it asks.
pub fn gives_what_it_says()
    ensures given { HandsOnWhatItSays }
    ensures listed { ListsWhatItSays }
    ensures answered { AnswersItems }
{}

/// The law that the events which the table lists for an action and a class are those that come of it:
/// each that comes is listed, and each that is listed can come.
pub fn emits_what_is_listed()
    ensures each { EmitsWhatIsListed }
    ensures all { ListsWhatIsEmitted }
{}

/// The law that what an action puts, other than a transition, is put in one of the ways that are said of it
/// beforehand: each share of that way at most once, and in their order.
pub fn puts_a_way()
    ensures { PutsAWay }
{}
