//! The moments of reads and keys.

/// A read of a terminal that has nothing waits for a tenth of a second. One that answers sooner that there is nothing says so of
/// the end of the input; this many milliseconds tell them apart.
const SOON: u64 = 40;

/// A program that was stopped reads this late at least.
const STOPPED: u64 = 500;

/// So long after the last key files are looked at, and again each time as much has passed.
const QUIET: u64 = 1000;

/// The moments of reads and keys, in milliseconds from the start.
#[derive(Drop)]
pub struct Clock {
    /// When the last read ended.
    last: u64,
    /// When the last key came, or files were looked at.
    pressed: u64,
    /// How long the program was stopped, in all.
    stopped: u64,
}

impl Clock {
    pub fn new() -> Clock {
        Clock {
            last: 0,
            pressed: 0,
            stopped: 0,
        }
    }

    /// Whether a read that has nothing says so of the end of the input.
    pub fn is_end(&self, now: u64) -> bool {
        now.saturating_sub(self.last) < SOON
    }

    /// A read has ended. The moment for the play, whose time stands still while the program is stopped: of that it knows by
    /// the window, of which it is told then.
    pub fn read(&mut self, now: u64, is_told: bool) -> u64 {
        let length = now.saturating_sub(self.last);
        if is_told && length > STOPPED {
            self.stopped = self.stopped.saturating_add(length);
        }
        self.last = now;
        now.saturating_sub(self.stopped)
    }

    /// A key came, or files are looked at.
    pub fn press(&mut self, moment: u64) {
        self.pressed = moment;
    }

    /// Whether no key has come for as long as files are left alone.
    pub fn is_quiet(&self, moment: u64) -> bool {
        moment.saturating_sub(self.pressed) >= QUIET
    }
}
