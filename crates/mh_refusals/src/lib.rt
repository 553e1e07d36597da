//! All that is wrong with a service: each place that is wrong in a configuration that is reached, in the order in which the
//! verifier names them, with what is named there first.
//!
//! Promise: the list is that of `specs/Listed` and no other; what stands first in it is what the verifier names. Cycles and
//! bounds, which a service has only where nothing is wrong at a place, are left to `mh_verify`.
#![tactic(auto)]

mod causes;
mod chains;
mod kinds;
mod laws;
mod members;
mod places;
mod refusals;
mod samples;
mod scope;
mod told;
mod walk;

pub use causes::cause_of;
pub use laws::{each_place_is_listed, first_is_the_verifiers, listed_is_wrong, places_rise};
pub use refusals::refusals_of;
pub use told::Told;
