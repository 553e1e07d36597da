//! `Cause`: an effect that puts another to work.
use mh_base::ObjRef;
use mh_group::ActionName;
use mh_model::Config;

/// An effect by its place, in a configuration in which it is active.
#[derive(Drop)]
pub struct Cause {
    pub config: Config,
    /// The object whose effect it is.
    pub at: ObjRef,
    /// The number of its first action through the effects of the object, from 1 on.
    pub index: usize,
    /// Its first action.
    pub action: Option<ActionName>,
}
