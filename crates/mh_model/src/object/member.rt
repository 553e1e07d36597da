//! Members of groups of objects.
use crate::Effect;
use mh_base::{ObjRef, Shared};

/// A member of a token group or of a list group (ISO/IEC 13522-5, TokenGroupItem): the object, and what
/// each of its action slots does.
#[derive(Clone, Drop)]
pub struct Member {
    pub object: ObjRef,
    pub slots: Shared<Effect>,
}
