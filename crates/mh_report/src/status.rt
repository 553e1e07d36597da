//! `Status`: how a play ended.
ghost use Rattle.std.specs.Prelude.{◌≡◌};
ghost use Rattle.mh_report.specs.Report.{exit_code, exit_of};

use mh_exit::Exit;

/// How a play ended, once its report was written whole.
#[derive(Clone, Copy, PartialEq, Eq)]
pub enum Status {
    Good,
    /// The verifier refused the service.
    Refused,
    /// A file, the service or the script could not be read.
    Unreadable,
    /// Items could not be done.
    Faults,
}

impl Status {
    /// How the program ends that has written the report.
    pub fn exit(self) -> Exit
        ensures { result ≡ exit_of self }
    {
        match self {
            Status::Good => Exit::Good,
            Status::Refused => Exit::Otherwise,
            Status::Unreadable => Exit::Unreadable,
            Status::Faults => Exit::Faults,
        }
    }

    /// Its exit status.
    pub fn code(self) -> u8
        ensures { result ≡ exit_code self }
    {
        self.exit().code()
    }
}
