//! A step of a traced machine: what is told of it, and what is noted.
ghost use Rattle.std.specs.Prelude.{◌≡◌, ◌++◌, ◌+◌, ◌<◌, ◌^◌, false, true, IfOk, IfSome, OnOk};
ghost use Rattle.mh_model.specs.Service.{parts};
ghost use Rattle.mh_model.specs.State.{all};
ghost use Rattle.mh_trace.specs.Listening.{IsIndexOf, is_exchange};
ghost use Rattle.mh_trace.specs.Outcome.{is_fault};
ghost use Rattle.mh_trace.specs.Trace as spec;

use crate::ears::listening::{Listening, listening_of};
use crate::form::{Form, Telling};
use crate::head::put_head;
use crate::outcome::put_outcome;
use crate::seen::marks::{Marks, marks_of};
use crate::seen::{Seen, is_fault, see, starts};
use crate::tracer::Tracer;
use crate::tracer::calls::step_once;
use crate::tracer::places::{add_entered, add_place, place_behind, put_sites};
use mh_machine::Stepped;
use mh_model::Item;
use mh_store::Objects;
use mh_told::text::Text;
use std::alloc::{AllocError, Global};

impl Tracer {
    /// Whether so many steps are left to make, one at least, and one can be made.
    pub(crate) fn goes_on(&self, left: u32) -> bool
        ensures goes { result ≡ spec.goes_on left self.now.state }
        ensures room { result ≡ true → self.now.state.taken + 1 < 2 ^ 64 }
    {
        if left == 0 {
            return false;
        }
        self.can_step()
    }

    /// Whether there is something to do, and a step can be counted.
    fn can_step(&self) -> bool
        ensures can { result ≡ spec.can_step self.now.state }
        ensures room { result ≡ true → self.now.state.taken + 1 < 2 ^ 64 }
    {
        let taken = self.machine.taken();
        if self.machine.is_settled() {
            return false;
        }
        taken != u64::MAX
    }

    /// Makes a step, and puts the line on it. What is known of the links before it comes in, if it is, and what is
    /// known behind it goes out.
    pub(crate) fn step(
        &mut self,
        telling: &Telling,
        known: Option<Listening>,
        text: &mut Text,
    ) -> Result<Option<Listening>, AllocError>
        requires room { self.old.state.taken + 1 < 2 ^ 64 }
        requires before { IfSome known (λ index. IsIndexOf index.entries (parts (all self.old.state.objects))) }
        ensures line { OnOk result (text.new ≡ text.old ++ spec.step_line telling.now self.old) }
        ensures left { OnOk result (self.new ≡ spec.traced_step self.old) }
        ensures behind { IfOk result
            (λ left. IfSome left (λ index. IsIndexOf index.entries (parts (all self.new.state.objects)))) }
    {
        let front = self.machine.front()?;
        let listening = known_or_found(self.alloc, known, self.machine.objects())?;
        self.step_with(telling, &front, &listening, text)?;
        Ok(unless_exchanged(&front, listening))
    }

    /// Makes the step that does this item, or takes what waits where there is none, and puts its line, where it is told.
    fn step_with(
        &mut self,
        telling: &Telling,
        front: &Option<Item>,
        listening: &Listening,
        text: &mut Text,
    ) -> Result<(), AllocError>
        requires room { self.old.state.taken + 1 < 2 ^ 64 }
        requires index { IsIndexOf listening.now.entries (parts (all self.old.state.objects)) }
        ensures line { OnOk result (text.new ≡ text.old ++ spec.line_by telling.now front.now self.old) }
        ensures left { OnOk result (self.new ≡ spec.traced_by front.now self.old) }
    {
        if telling.tells(self.machine.taken() + 1) {
            self.step_told(telling.form, front, listening, text)
        } else {
            self.step_untold(front, listening)
        }
    }

    fn step_told(
        &mut self,
        form: Form,
        front: &Option<Item>,
        listening: &Listening,
        text: &mut Text,
    ) -> Result<(), AllocError>
        requires room { self.old.state.taken + 1 < 2 ^ 64 }
        requires index { IsIndexOf listening.now.entries (parts (all self.old.state.objects)) }
        ensures line { OnOk result (text.new ≡ text.old ++ spec.told_line form front.now self.old) }
        ensures left { OnOk result (self.new ≡ spec.traced_by front.now self.old) }
    {
        put_head(
            self.alloc,
            form,
            text,
            front,
            &self.machine,
            &self.places,
            &self.directory,
            listening,
        )?;
        let seen = see(self.alloc, front, &self.machine, &self.places, listening)?;
        let answer = step_once(&mut self.machine)?;
        self.settle(form, front, seen, &answer, text)?;
        Ok(())
    }

    /// What the line alone asks for is not looked at: a step that is not told costs less.
    fn step_untold(&mut self, front: &Option<Item>, listening: &Listening) -> Result<(), AllocError>
        requires room { self.old.state.taken + 1 < 2 ^ 64 }
        requires index { IsIndexOf listening.now.entries (parts (all self.old.state.objects)) }
        ensures { OnOk result (self.new ≡ spec.traced_by front.now self.old) }
    {
        let marks = marks_of(self.alloc, front, &self.machine, &self.places, listening)?;
        let answer = step_once(&mut self.machine)?;
        self.note(front, marks, is_fault(&answer))?;
        Ok(())
    }

    /// Puts what came of a step, and notes it.
    fn settle(
        &mut self,
        form: Form,
        front: &Option<Item>,
        seen: Seen,
        answer: &Stepped,
        text: &mut Text,
    ) -> Result<(), AllocError>
        ensures line { OnOk result (text.new
            ≡ text.old ++ spec.settled_text form seen answer.now self.old.state) }
        ensures left { OnOk result (self.new ≡ spec.noted front.now seen.marks (is_fault answer.now) self.old) }
    {
        put_outcome(self.alloc, form, text, &seen, answer, &self.machine)?;
        self.note(front, seen.marks, is_fault(answer))?;
        Ok(())
    }

    /// Notes a step behind which the machine is.
    fn note(&mut self, front: &Option<Item>, marks: Marks, is_fault: bool) -> Result<(), AllocError>
        ensures { OnOk result (self.new ≡ spec.noted front.now marks is_fault self.old) }
    {
        let started = starts(marks.begun, &self.machine);
        let Marks {
            opened,
            closing,
            place,
            ..
        } = marks;
        let put = put_sites(self.alloc, is_fault, opened);
        place_behind(&mut self.places, front, started, closing, put)?;
        add_place(&mut self.done, &mut self.faulted, is_fault, place)?;
        add_entered(&mut self.entered, front)
    }
}

/// What is known of the links among these objects; it is looked for where it is not known.
fn known_or_found(
    alloc: Global,
    known: Option<Listening>,
    objects: &Objects,
) -> Result<Listening, AllocError>
    requires { IfSome known (λ index. IsIndexOf index.entries (parts (all objects.now))) }
    ensures { IfOk result (λ index. IsIndexOf index.entries (parts (all objects.now))) }
{
    match known {
        Some(listening) => Ok(listening),
        None => listening_of(alloc, objects),
    }
}

/// What was known of the links, unless the item has exchanged the objects.
fn unless_exchanged(front: &Option<Item>, listening: Listening) -> Option<Listening>
    ensures { IfSome result (λ index. (is_exchange front.now ≡ false) × (index.entries ≡ listening.entries)) }
{
    match front {
        Some(Item::Exchange(_)) => None,
        _ => Some(listening),
    }
}
