//! Room for what a plan puts, waits for and notes: all that a commit wants of memory, but for the body that it
//! changes.
ghost use Rattle.std.specs.Prelude.{◌≡◌, ◌+◌, ◌≤◌, OnOk, length, vec_len, vec_capacity};

use crate::stage::Stage;
use mh_base::Seq;
use mh_carousel::Carousel;
use mh_events::Agenda;
use mh_model::Fault;
use mh_work::{Batch, Work};
use std::alloc::AllocError;

/// Makes room for all that a plan may put.
pub(crate) fn make_room(
    work: &mut Work,
    stage: &mut Stage,
    agenda: &mut Agenda,
    faults: &mut Vec<Fault>,
    carousel: &mut Carousel,
    batches: &Seq<Batch>,
) -> Result<(), AllocError>
    ensures work { work.new.items ≡ work.old.items }
    ensures objects { stage.new.objects ≡ stage.old.objects }
    ensures stack { stage.new.stack ≡ stage.old.stack }
    ensures moments { agenda.new.moments ≡ agenda.old.moments }
    ensures timers { agenda.new.timers ≡ agenda.old.timers }
    ensures queue { agenda.new.queue ≡ agenda.old.queue }
    ensures faults { faults.new.items ≡ faults.old.items }
    ensures files { carousel.new.files ≡ carousel.old.files }
    ensures waits { carousel.new.waits ≡ carousel.old.waits }
    ensures batches { OnOk result (length batches.now ≤ work.new.room) }
    ensures place { OnOk result (1 ≤ stage.new.room) }
    ensures event { OnOk result (1 ≤ agenda.new.room) }
    ensures wait { OnOk result (1 ≤ carousel.new.room) }
    ensures fault { OnOk result (vec_len faults.new + 1 ≤ vec_capacity faults.new) }
{
    stage.reserve()?;
    agenda.reserve(1)?;
    faults.reserve(1)?;
    carousel.reserve_wait()?;
    work.reserve(batches.len())
}
