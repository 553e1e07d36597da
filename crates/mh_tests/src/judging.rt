//! The verifier: what it accepts and refuses, what it shows, and what it counts.

pub(crate) mod arrows;
pub(crate) mod chains;
pub(crate) mod claims;
pub(crate) mod evidence;
pub(crate) mod paths;
pub(crate) mod verify;
