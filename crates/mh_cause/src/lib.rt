//! Why the verifier refuses an action, case by case: what is named or found there, what is wanted, and how it is mended.
//!
//! Promise: what is told is what the definitions in `specs/` say of the service and of the refusal, and nothing else. Whether
//! an action is refused is left to `mh_verify`. Classes, kinds and parameters come from the tables of `mh_group` and
//! `mh_model`, so that a row more in these needs no text here.
#![tactic(auto)]

mod absent;
mod acts;
mod calls;
mod candidates;
mod cause;
pub mod detail;
mod elsewhere;
mod judging;
mod lists;
pub mod misfit;
mod misfit_mends;
mod misfit_words;
mod naming;
mod passed;
pub mod passing;
mod phrases;
mod present;
mod programs;
pub mod refused;
pub mod role;
mod unfit;

pub use cause::{put_cause, put_mend};
pub use detail::{Detail, detail_of};
pub use refused::Refused;
