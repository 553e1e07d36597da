//! The numbers of refusals by which more is told than their row of a table: each as it is printed, under
//! the name that it has where it is found.

// Of a service (`mh_service`, `mh_told`).

/// Two ingredients of a group have one number.
pub(crate) const DOUBLE_NUMBER: &[u8] = b"32";

/// The start group is a scene.
pub(crate) const NOT_AN_APPLICATION: &[u8] = b"33";

/// There are too many groups, ingredients or actions.
pub(crate) const LIMIT: &[u8] = b"34";

/// A written name leads to no path.
pub(crate) const BAD_REFERENCE: &[u8] = b"35";

/// A line of the file of late scenes names none.
pub(crate) const NO_SCENE: &[u8] = b"37";

// Of what is posted (`mh_engine`).

/// A file has too many octets.
pub(crate) const TOO_LARGE: &[u8] = b"40";

/// There would be too many files.
pub(crate) const TOO_MANY: &[u8] = b"41";

/// As many inputs wait as may.
pub(crate) const QUEUE_FULL: &[u8] = b"51";

/// The application has quit.
pub(crate) const ENDED: &[u8] = b"52";

/// With the ticks that wait the clock would be past its last moment.
pub(crate) const CLOCK_FULL: &[u8] = b"53";

/// A tick is too short or too long.
pub(crate) const TICK_RANGE: &[u8] = b"54";

/// No scene of the name is late, or its file waits already.
pub(crate) const NOT_LATE: &[u8] = b"57";

/// The group is another one than that of the service.
pub(crate) const DIFFERS: &[u8] = b"58";

// Of a file of tags (`mh_codec`).

/// A line names no tag.
pub(crate) const TAG_LINE: &[u8] = b"60";
