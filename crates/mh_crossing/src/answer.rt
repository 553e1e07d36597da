//! The numbers that a call answers, whatever it does.
ghost use Rattle.std.specs.Prelude.{◌≡◌};
ghost use Rattle.mh_crossing.specs.Answers.{name_number};

use mh_base::NameError;

/// What was asked for is done.
pub const GOOD: u32 = 0;
/// Memory was refused.
pub const NO_MEMORY: u32 = 100;
/// The handle has no session.
pub const NO_SESSION: u32 = 101;
/// The name of a file is no path.
pub const NO_PATH: u32 = 105;
/// The handle has a session already.
pub const IN_USE: u32 = 106;
/// There is no such row, object or day.
pub const OUT_OF_RANGE: u32 = 107;
/// A line of a script says no command.
pub const NO_SCRIPT: u32 = 108;

/// The number under which it is told that a name is no path.
pub fn name_number(why: NameError) -> u32
    ensures { result ≡ name_number why }
{
    match why {
        NameError::BadName => NO_PATH,
        NameError::NoMemory => NO_MEMORY,
    }
}
