//! Who interacts.
use mh_base::{ObjRef, Octets};

/// The object to which keys go while it interacts, and the text that it had when that began
/// (ISO/IEC 13522-5, Interactible).
#[derive(Drop)]
pub struct Interaction {
    pub object: ObjRef,
    pub before: Octets,
}
