//! `Note`: what is noted of an object, without a theorem.
use crate::rule::Rule;
use mh_base::ObjRef;

/// What is noted of an action of an object, by its number through the object's effects, from 1 on; or, with 0, of the
/// object itself.
#[derive(Drop)]
pub struct Note {
    pub rule: Rule,
    pub at: ObjRef,
    pub index: usize,
}
