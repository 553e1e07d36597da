//! `Exit`: how a program ends. The exit statuses of all programs stand here alone, each with its meaning.
#![tactic(auto)]

ghost use Rattle.std.specs.Prelude.{◌≡◌};
ghost use Rattle.mh_exit.specs.Codes.{code_of};

/// How a program ends.
#[derive(Clone, Copy, PartialEq, Eq)]
pub enum Exit {
    /// What was asked for is done: a service is accepted or played without a fault, a group is written, reports are alike,
    /// a script is found.
    Good,
    /// It is done, and the answer is the other one: a service is refused, reports differ, something is found of a
    /// service, no script is found.
    Otherwise,
    /// A file, a service, a script or the command line cannot be read.
    Unreadable,
    /// A play met actions that could not be done.
    Faults,
    /// Memory or writing failed.
    Failed,
}

impl Exit {
    /// The exit status that tells so.
    pub fn code(self) -> u8
        ensures { result ≡ code_of self }
    {
        match self {
            Exit::Good => 0,
            Exit::Otherwise => 1,
            Exit::Unreadable => 2,
            Exit::Faults => 3,
            Exit::Failed => 4,
        }
    }
}
