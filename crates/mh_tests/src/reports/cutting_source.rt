//! Sources that stop giving bytes, and sources that go on for long.
ghost use Rattle.std.specs.Prelude.{◌≡◌, ◌≤◌, length};

use mh_folder::{Source, Tally};

/// A source that gives its bytes, at most so many a read, in so many reads. Those behind them fail.
#[derive(Drop)]
pub struct CuttingSource {
    pub bytes: Vec<u8>,
    /// How many of them were given.
    pub at: usize,
    /// How many reads are still good.
    pub reads: usize,
    /// How many bytes a read gives at most.
    pub most: usize,
    pub tally: Tally,
}

impl CuttingSource {
    /// Gives some bytes, and says how many.
    fn give(&mut self, room: &mut [u8]) -> usize
        ensures within { result ≤ length room.old }
        ensures tally { self.new.tally ≡ self.old.tally }
    {
        let rest = self.bytes.get(self.at..).unwrap_or(&[]);
        let count = room.len().min(self.most).min(rest.len());
        room[..count].copy_from_slice(&rest[..count]);
        self.at = self.at.saturating_add(count);
        count
    }
}

impl Source for CuttingSource {
    ghost use Rattle.std.specs.Prelude.{None};

    ghost left = { λ _. None };

    ghost tally = { λ s. s.tally };

    fn read(&mut self, room: &mut [u8]) -> Option<usize> {
        let given = if self.reads == 0 {
            None
        } else {
            self.reads -= 1;
            Some(self.give(room))
        };
        self.tally.count(room.len(), given);
        given
    }
}

/// A source of so many zeros, at most so many a read.
#[derive(Drop)]
pub struct ZeroSource {
    pub zeros: usize,
    pub most: usize,
    pub tally: Tally,
}

impl Source for ZeroSource {
    ghost use Rattle.std.specs.Prelude.{None};

    ghost left = { λ _. None };

    ghost tally = { λ s. s.tally };

    fn read(&mut self, room: &mut [u8]) -> Option<usize> {
        let count = room.len().min(self.most).min(self.zeros);
        self.zeros -= count;
        self.tally.count(room.len(), Some(count));
        Some(count)
    }
}
