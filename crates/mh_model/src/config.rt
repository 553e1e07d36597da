//! Configurations: which groups are active.
use mh_base::GroupName;

/// A configuration (ISO/IEC 13522-5, the active application and the current scene): an application, and
/// one of its scenes or none.
#[derive(Clone, Drop, PartialEq, Eq, Hash)]
pub struct Config {
    pub app: GroupName,
    pub scene: Option<GroupName>,
}
