//! The faults that were met, as text.
ghost use Rattle.std.specs.Prelude.{◌≡◌, Ok, IfOk};
ghost use Rattle.mh_told.specs.Told.{fault_line};
ghost use Rattle.redplay_c.specs.Answers.{IsDone};
ghost use Rattle.redplay_c.specs.Calls.{IsFaultTold};
ghost use Rattle.redplay_c.specs.Verdicts.{IsPut, IsUnput};

use crate::answer::{GOOD, NO_MEMORY, OUT_OF_RANGE};
use crate::crossing::put;
use crate::session::Session;
use mh_model::Fault;
use mh_told::text::Text;
use mh_told::told::put_fault;
use std::alloc::{AllocError, Global};

impl Session {
    /// Tells the fault with this place, the first at 0, and answers 0 or why it is not told.
    pub fn fault(&self, at: usize, text: &mut [u8], length: &mut usize) -> u32
        ensures { IsFaultTold at text.old text.new length.old length.new self.now self.now result }
    {
        match self.player.machine().faults().get(at) {
            Some(fault) => tell(self.alloc, fault, text, length),
            None => OUT_OF_RANGE,
        }
    }
}

/// Puts the line of a fault there.
fn tell(alloc: Global, fault: &Fault, text: &mut [u8], length: &mut usize) -> u32
    ensures { IsDone result (IsPut (fault_line fault.now) text.old text.new length.new) (IsUnput text.old text.new length.old length.new) }
{
    match fault_text(alloc, fault) {
        Ok(line) => {
            *length = put(line.as_slice(), text);
            GOOD
        }
        Err(_) => NO_MEMORY,
    }
}

fn fault_text(alloc: Global, fault: &Fault) -> Result<Text, AllocError>
    ensures { IfOk result (λ text. text ≡ fault_line fault.now) }
{
    let mut text = Text::new(alloc);
    put_fault(&mut text, fault)?;
    Ok(text)
}
