//! What a call answers: 0, the number under which a refusal is told everywhere, or one of these.
ghost use Rattle.std.specs.Prelude.{◌≡◌, ◌<◌};
ghost use Rattle.redplay_c.specs.Answers.{name_number, why_number};
ghost use Rattle.redplay_c.specs.Files.{reading_number};

use mh_base::NameError;
use mh_engine::RefusedWhy;
use mh_told::unplayable::Unplayable;

/// What was asked for is done.
pub const GOOD: u32 = 0;
/// Memory was refused.
pub const NO_MEMORY: u32 = 100;
/// The handle has no session.
pub const NO_SESSION: u32 = 101;
/// The verifier does not accept the service.
pub const UNACCEPTED: u32 = 102;
/// No key has the number.
pub const NO_KEY: u32 = 104;
/// The name of a file is no path.
pub const NO_PATH: u32 = 105;
/// The handle has a session already.
pub const IN_USE: u32 = 106;
/// There is no such row, fault or day.
pub const OUT_OF_RANGE: u32 = 107;

/// The number under which a refusal is told. Want of memory, to which the engine gives none, has one here.
#[tactic(auto, using(crate::proofs::AnswerLemmas::why_some))]
pub fn number_of(why: RefusedWhy) -> u32
    ensures number { result ≡ why_number why }
    ensures some { 0 < result }
{
    why.number().unwrap_or(NO_MEMORY)
}

/// The number under which it is told that a file cannot be read, or that the files make no service.
pub fn reading_number(why: &Unplayable) -> Option<u32>
    ensures { result ≡ reading_number why.now }
{
    match why {
        Unplayable::File { number, .. }
        | Unplayable::Service { number, .. }
        | Unplayable::Tags { number, .. } => Some(*number),
        Unplayable::Script(_) | Unplayable::NoMemory => None,
    }
}

/// The number under which it is told that a name is no path.
pub fn name_number(why: NameError) -> u32
    ensures { result ≡ name_number why }
{
    match why {
        NameError::BadName => NO_PATH,
        NameError::NoMemory => NO_MEMORY,
    }
}
