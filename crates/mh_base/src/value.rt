//! The values of variables and parameters, and their kinds.
use crate::{GroupName, ObjRef, Octets};

/// The kinds of values, one for each class of variables.
#[derive(Clone, Copy, PartialEq, Eq)]
pub enum Kind {
    Bool,
    Int,
    Octets,
    Object,
    Content,
}

/// All kinds of values.
pub const KINDS: [Kind; 5] = [
    Kind::Bool,
    Kind::Int,
    Kind::Octets,
    Kind::Object,
    Kind::Content,
];

/// A value: of a variable, of a parameter, or the data of an event.
#[derive(Clone, Drop, PartialEq, Eq)]
pub enum Value {
    Bool(bool),
    Int(i32),
    Octets(Octets),
    Object(ObjRef),
    /// The name of a content file.
    Content(GroupName),
}
