//! `Told`: what is wrong at one place of a service.
use mh_base::Seq;
use mh_flow::Link;
use mh_verify::Found;

/// What is found to be wrong at a place, and how the reference came to the variable or the list that may hold it: no link
/// where it is written at the place.
#[derive(Drop)]
pub struct Told {
    pub found: Found,
    pub chain: Seq<Link>,
}
