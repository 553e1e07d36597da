//! References as a group writes them.
use crate::{Number, WrittenName};

/// A reference to an object (ISO/IEC 13522-5, ObjectReference).
#[derive(Drop)]
pub enum Ref {
    /// A number alone: an object of the group in which it is written.
    Here(Number),
    /// A number in the group of this name.
    In(WrittenName, Number),
}

/// A value that is written directly, or is held by the variable to which a reference leads
/// (ISO/IEC 13522-5, the Generic types).
#[derive(Drop)]
pub enum Generic<T> {
    Direct(T),
    Indirect(Ref),
}
