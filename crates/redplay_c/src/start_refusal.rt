//! Why there is no session.
ghost use Rattle.std.specs.Prelude.{◌≡◌};
ghost use Rattle.mh_engine.specs.Sealed.{unsealed_number};
ghost use Rattle.mh_seal.specs.Numbers.{error_number};
ghost use Rattle.redplay_c.specs.Answers.{of_name, start_number};
ghost use Rattle.redplay_c.specs.Files.{reading_number};
ghost use Rattle.redplay_c.specs.Starts.{refusal_of};
ghost use Rattle.std.specs.Option.{option_map_or};

use crate::answer::{NO_MEMORY, NO_PATH, OUT_OF_RANGE, UNACCEPTED, number_of, reading_number};
use mh_base::NameError;
use mh_engine::{RefusedWhy, Unsealed};
use mh_seal::SealError;
use mh_told::unplayable::Unplayable;
use std::alloc::AllocError;

/// Why there is no session.
#[derive(Clone, Copy, PartialEq, Eq)]
pub enum StartRefusal {
    NoMemory,
    /// There is no such day.
    NoDay,
    /// The name of a file is no path.
    NoPath,
    /// A file cannot be read, or the files make no service, for the reason of this number.
    Unreadable(u32),
    /// The verifier refuses the service.
    Unaccepted,
    /// A content file that the service names cannot be there.
    Unset(RefusedWhy),
}

impl StartRefusal {
    /// The number that is answered.
    pub fn number(self) -> u32
        ensures { result ≡ start_number self }
    {
        match self {
            StartRefusal::NoMemory => NO_MEMORY,
            StartRefusal::NoDay => OUT_OF_RANGE,
            StartRefusal::NoPath => NO_PATH,
            StartRefusal::Unreadable(number) => number,
            StartRefusal::Unaccepted => UNACCEPTED,
            StartRefusal::Unset(why) => number_of(why),
        }
    }

    /// Why there is none where a content file was refused.
    pub fn of_unset(why: RefusedWhy) -> StartRefusal
        ensures { result ≡ refusal_of why }
    {
        match why {
            RefusedWhy::NoMemory => StartRefusal::NoMemory,
            RefusedWhy::Ended
            | RefusedWhy::TickRange
            | RefusedWhy::Begun
            | RefusedWhy::NotLate
            | RefusedWhy::Differs
            | RefusedWhy::TooLarge
            | RefusedWhy::TooMany
            | RefusedWhy::ClockFull
            | RefusedWhy::QueueFull => StartRefusal::Unset(why),
        }
    }

    /// Why there is none where the files cannot be read.
    pub fn of_unread(why: &Unplayable) -> StartRefusal
        ensures { result ≡ option_map_or StartRefusal.Unreadable (reading_number why.now) StartRefusal.NoMemory }
    {
        match reading_number(why) {
            Some(number) => StartRefusal::Unreadable(number),
            None => StartRefusal::NoMemory,
        }
    }

    /// Why there is none where the bytes are no seal.
    pub fn of_seal(why: SealError) -> StartRefusal
        ensures { result ≡ option_map_or StartRefusal.Unreadable (error_number why) StartRefusal.NoMemory }
    {
        match why.number() {
            Some(number) => StartRefusal::Unreadable(number),
            None => StartRefusal::NoMemory,
        }
    }

    /// Why there is none where no engine begins by the seal.
    pub fn of_unsealed(why: &Unsealed) -> StartRefusal
        ensures { result ≡ option_map_or StartRefusal.Unreadable (unsealed_number why.now) StartRefusal.NoMemory }
    {
        match why.number() {
            Some(number) => StartRefusal::Unreadable(number),
            None => StartRefusal::NoMemory,
        }
    }

    /// Why there is none where the names of files are not all paths.
    pub fn of_name(why: NameError) -> StartRefusal
        ensures { result ≡ of_name why }
    {
        match why {
            NameError::BadName => StartRefusal::NoPath,
            NameError::NoMemory => StartRefusal::NoMemory,
        }
    }
}

impl From<AllocError> for StartRefusal {
    ghost use Rattle.std.specs.Prelude.{◌≡◌};
    ghost use Rattle.redplay_c.specs.declared.start_refusal.StartRefusal.TheVariants.{NoMemory};

    ghost from_gives = { λ _ e. e ≡ NoMemory };

    fn from(_refused: AllocError) -> StartRefusal {
        StartRefusal::NoMemory
    }
}
