//! `Session`: a machine that plays and tells its steps, and what was told and not yet fetched.
ghost use Rattle.std.specs.Prelude.{◌≡◌, []};
ghost use Rattle.mh_crossing.specs.Rooms.{IsPut};
ghost use Rattle.redplay_page.specs.Playing.{counts_of, rest_number};

use mh_crossing::put_length;
use mh_model::Rest;
use mh_told::text::Text;
use mh_trace::{Telling, Tracer};
use std::alloc::Global;
use std::marker::Model;

/// How many steps were taken, how many faults were met, and what is left to do: 0 more, 1 nothing, 2 the application has quit.
#[repr(C)]
#[derive(Clone, Copy)]
pub struct Counts {
    pub taken: u64,
    pub faults: u64,
    pub rest: u64,
}

/// A traced machine, how its steps are told, and the lines since they were fetched. A contract sees all three.
#[derive(Drop)]
pub struct Session {
    pub(crate) alloc: Global,
    pub(crate) tracer: Tracer,
    pub(crate) telling: Telling,
    pub(crate) told: Text,
}

impl Model for Session {
    ghost use Rattle.redplay_page.specs.Playing.{Playing};

    ghost Value = { Playing };

    ghost view = { λ s. record { tracing = s.tracer; telling = s.telling; told = s.told } };
}

impl Session {
    /// Puts the lines since they were fetched there, and tells how long they are. They stay.
    pub fn put_lines(&self, text: &mut [u8], length: &mut usize)
        ensures { IsPut self.now.told text.old text.new length.new }
    {
        put_length(self.told.as_slice(), text, length);
    }

    /// They were fetched.
    pub fn forget_lines(&mut self)
        ensures { self.new ≡ record self.old { told = [] } }
    {
        self.told = Text::new(self.alloc);
    }

    /// How many steps were taken, how many faults were met, and what is left to do.
    pub fn counts(&self) -> Counts
        ensures { result ≡ counts_of self.now.tracing.state }
    {
        let machine = self.tracer.machine();
        Counts {
            taken: machine.taken(),
            faults: machine.faults().len() as u64,
            rest: rest_number(machine.rest()),
        }
    }
}

fn rest_number(rest: Rest) -> u64
    ensures { result ≡ rest_number rest }
{
    match rest {
        Rest::More => 0,
        Rest::Idle => 1,
        Rest::Ended => 2,
    }
}
