//! How a reference came to the place at which it is wrong.
use mh_base::{ObjRef, Seq};
use mh_flow::Link;

/// A reference, and the links that brought it: none where it is written at its place.
#[derive(Drop)]
pub struct Coming {
    pub chain: Seq<Link>,
    pub at: ObjRef,
}
