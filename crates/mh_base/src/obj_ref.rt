//! `ObjRef`: a reference whose group is known.
use crate::GroupName;

/// A reference to an object (ISO/IEC 13522-5, ObjectReference): its group and its number there. The
/// group itself has number 0. The number stands first, since references that differ mostly differ in it
/// and it is compared at once.
#[derive(Clone, Drop, PartialEq, Eq, Hash)]
pub struct ObjRef {
    pub number: u32,
    pub group: GroupName,
}
