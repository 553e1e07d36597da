//! What is posted to the machine, and the moves of a run.
use crate::{Event, File, Key, SharedGroup};
use mh_base::GroupName;

/// The most milliseconds of one tick.
pub const LONGEST_TICK: u32 = 60_000;

/// What comes from outside.
#[derive(Clone, Drop)]
pub enum Input {
    Key(Key),
    /// Time passes: so many milliseconds, 1 to `LONGEST_TICK`.
    Tick(u32),
    /// A stream event with this tag (ISO/IEC 13522-5, StreamEvent).
    Stream(i32),
    /// An event of the engine with this number (ISO/IEC 13522-5, EngineEvent).
    Engine(i32),
    /// A content file is there, in the place of an older one of its name.
    Arrive(File),
    /// The file of a scene that was late is there: its name, and the group.
    Scene(GroupName, SharedGroup),
}

/// What waits in the queue until it is taken.
#[derive(Clone, Drop)]
pub enum Waiting {
    Input(Input),
    /// An event of an asynchronous type (ISO/IEC 13522-5, the event queue).
    Event(Event),
}

/// Why an input cannot join the queue.
#[derive(Clone, Copy, PartialEq, Eq)]
pub enum Obstacle {
    /// The application has quit.
    Ended,
    /// A tick is not of 1 to 60,000 milliseconds.
    TickRange,
    /// A post was accepted or a step taken, so that no file can be preset.
    Begun,
    /// No scene of this name is late, or its file waits already.
    NotLate,
    /// The group is not that of the service.
    Differs,
    /// A file has more than 65,535 octets.
    TooLarge,
    /// With the names that wait, there would be more than 1,024 files.
    TooMany,
    /// With the ticks that wait, the present would be past the last moment, 4,294,967,295.
    ClockFull,
    /// As many inputs wait as may.
    QueueFull,
}

/// One move of a run.
#[derive(Clone, Drop)]
pub enum Move {
    Post(Input),
    Step,
}
