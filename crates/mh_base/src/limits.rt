//! What both notations can hold.

/// The most members of one written list.
pub const LONGEST_LIST: usize = 4096;

/// The most bytes of one file.
pub const LARGEST_FILE: usize = 1048576;
