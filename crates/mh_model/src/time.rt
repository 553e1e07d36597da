//! Time: moments and timers. All moments are milliseconds since the start.
use mh_base::GroupName;

/// The present moment, and those in which the groups of the configuration were entered.
#[derive(Clone, Copy, PartialEq, Eq)]
pub struct Moments {
    pub present: u32,
    /// When the active application was entered.
    pub application: u32,
    /// When the current scene was entered.
    pub scene: u32,
}

/// A timer that is set (ISO/IEC 13522-5, SetTimer).
#[derive(Clone, Drop)]
pub struct Timer {
    /// The application or scene whose timer it is.
    pub group: GroupName,
    pub id: i32,
    /// The moment from which on it is due.
    pub due: u64,
}
