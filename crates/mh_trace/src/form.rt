//! How steps are told, and which.
ghost use Rattle.std.specs.Prelude.{◌≡◌};
ghost use Rattle.mh_trace.specs.Form as spec;

/// How what is found of a step is written.
#[derive(Clone, Copy, PartialEq, Eq)]
pub enum Form {
    /// A line that is read.
    Text,
    /// An object in the JavaScript Object Notation (ECMA-404), in a line, for other programs.
    Json,
}

/// How steps are told, and which: those from one to another, by their numbers from 1 on.
#[derive(Clone, Copy)]
pub struct Telling {
    pub form: Form,
    pub from: u64,
    pub until: u64,
}

impl Telling {
    /// Of no step.
    pub fn nothing() -> Telling
        ensures { result ≡ spec.telling_nothing }
    {
        Telling {
            form: Form::Text,
            from: 1,
            until: 0,
        }
    }

    /// Whether the step with this number is told.
    pub fn tells(self, number: u64) -> bool
        ensures { result ≡ spec.tells self number }
    {
        self.from <= number && number <= self.until
    }

    /// Whether it is told what is done behind so many steps: behind one that is told, or before the first.
    pub fn tells_behind(self, taken: u64) -> bool
        ensures { result ≡ spec.tells_behind self taken }
    {
        self.tells(taken) || self.from.saturating_sub(1) == taken
    }
}
