//! `Tally`: how the reads of a source are counted.
ghost use Rattle.std.specs.Prelude.{◌≡◌, ◌<◌, ◌≤◌, unwrap_or};
ghost use Rattle.mh_folder.specs.Source.{unread, CanCount, after_read};

/// How a source was read so far.
#[derive(Clone, Copy)]
pub struct Tally {
    /// How many reads were made.
    pub reads: u64,
    /// How many bytes they gave.
    pub given: u64,
    /// Up to which byte one was asked for, counted from the first that the source had.
    pub asked: u64,
    /// How many reads failed.
    pub faults: u64,
}

impl Tally {
    /// Of a source that was not read yet.
    pub fn new() -> Tally
        ensures { result ≡ unread }
    {
        Tally {
            reads: 0,
            given: 0,
            asked: 0,
            faults: 0,
        }
    }

    /// Counts one more read into so much room, and what it gave; none where it failed.
    pub fn count(&mut self, room: usize, given: Option<usize>)
        requires some { 0 < room }
        requires within { unwrap_or given 0 ≤ room }
        requires room { CanCount self.old room }
        ensures { self.new ≡ after_read given room self.old }
    {
        self.reads += 1;
        self.asked = self.asked.max(self.given + room as u64);
        match given {
            Some(count) => self.given += count as u64,
            None => self.faults += 1,
        }
    }
}
