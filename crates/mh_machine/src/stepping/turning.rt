//! An object that runs or stops by itself: it loads no content, and runs and stops no other. What becomes of it is known
//! beforehand, so that nothing is planned.
ghost use Rattle.std.specs.Prelude.{◌≡◌, ◌+◌, ◌<◌, ◌^◌, IfOk, OnOk, OnErr};
ghost use Rattle.std.specs.Option.{option_copied};
ghost use Rattle.mh_model.specs.Items.{plain_event};
ghost use Rattle.mh_model.specs.Step.{done};
ghost use Rattle.mh_machine.specs.Turns.{asleep, is_asleep, rise_if, runs_alone, started_alone, stops_alone, stops_others, stopped_alone};

use crate::plan::Stacking;
use crate::plan::acting::MOST_PUT;
use crate::plan::focus::end_of;
use crate::works::Works;
use mh_base::{EventType, ObjRef, both};
use mh_group::Class;
use mh_model::{Edit, Event, Item, Object};
use mh_work::Put;
use std::alloc::AllocError;

impl Works {
    /// An object runs. Most do so by themselves.
    #[inline(never)]
    pub(crate) fn do_run(&mut self, at: &ObjRef) -> Result<(), AllocError>
        requires { self.old.state.taken + 1 < 2 ^ 64 }
        ensures done { OnOk result (self.new.state ≡ done (Item.Run at.now) self.old.state) }
        ensures kept { OnErr result (self.new.state ≡ self.old.state) }
    {
        match asleep(self.stage.objects().get(at)) {
            Some(is_seen) => self.start_alone(at, is_seen),
            None => self.run_with_others(at),
        }
    }

    /// An object stops.
    #[inline(never)]
    pub(crate) fn do_halt(&mut self, at: &ObjRef) -> Result<(), AllocError>
        requires { self.old.state.taken + 1 < 2 ^ 64 }
        ensures done { OnOk result (self.new.state ≡ done (Item.Halt at.now) self.old.state) }
        ensures kept { OnErr result (self.new.state ≡ self.old.state) }
    {
        if stops_alone(self.stage.objects().get(at)) {
            self.stop_alone(at)
        } else {
            self.halt_with_others(at)
        }
    }

    /// An object becomes available and runs. A visible is then on top of the display stack.
    fn start_alone(&mut self, at: &ObjRef, is_seen: bool) -> Result<(), AllocError>
        requires { self.old.state.taken + 1 < 2 ^ 64 }
        ensures done { OnOk result (self.new.state ≡ started_alone is_seen at.now self.old.state) }
        ensures kept { OnErr result (self.new.state ≡ self.old.state) }
    {
        self.stage.reserve()?;
        self.work.reserve(MOST_PUT)?;
        let made = both(both(at.clone(), at.clone()), on_top(is_seen, at))?;
        let started = self.stage.edit(at, Edit::Start(None));
        let ((first, second), stacking) = started.and(Ok(made))?;
        self.stage.restack(stacking);
        self.carousel.forget(at);
        let available = event(first, EventType::IsAvailable);
        self.work
            .put_by_act(Put::Two(available, event(second, EventType::IsRunning)));
        self.taken += 1;
        Ok(())
    }

    /// An object that runs stops.
    fn stop_alone(&mut self, at: &ObjRef) -> Result<(), AllocError>
        requires { self.old.state.taken + 1 < 2 ^ 64 }
        ensures done { OnOk result (self.new.state ≡ stopped_alone at.now self.old.state) }
        ensures kept { OnErr result (self.new.state ≡ self.old.state) }
    {
        self.work.reserve(MOST_PUT)?;
        let source = at.clone()?;
        let source = self.stage.edit(at, Edit::Halt).and(Ok(source))?;
        end_of(&mut self.interaction, at);
        self.work
            .put_by_act(Put::One(event(source, EventType::IsStopped)));
        self.taken += 1;
        Ok(())
    }
}

/// Whether the object is a visible, if it runs by itself and has not become available.
fn asleep(found: Option<&Object>) -> Option<bool>
    ensures { result ≡ asleep (option_copied found.entry) }
{
    match found {
        Some(object) if is_asleep(object) => Some(object.fixed.get().class.is_visible()),
        _ => None,
    }
}

fn is_asleep(object: &Object) -> bool
    ensures { result ≡ is_asleep object.now }
{
    !object.body.running && !object.body.available && runs_alone(object.fixed.get().class)
}

/// Whether an object of the class loads no content, and runs no other.
fn runs_alone(class: Class) -> bool
    ensures { result ≡ runs_alone class }
{
    matches!(
        class,
        Class::Rectangle | Class::DynamicLineArt | Class::Link | Class::Stream
    )
}

/// Whether the object runs, and stops no other.
fn stops_alone(found: Option<&Object>) -> bool
    ensures { result ≡ stops_alone (option_copied found.entry) }
{
    match found {
        Some(object) => object.body.running && !stops_others(object.fixed.get().class),
        None => false,
    }
}

fn stops_others(class: Class) -> bool
    ensures { result ≡ stops_others class }
{
    matches!(class, Class::TokenGroup | Class::ListGroup)
}

/// A visible rises.
fn on_top(is_seen: bool, at: &ObjRef) -> Result<Stacking, AllocError>
    ensures { IfOk result (λ stacking. stacking ≡ rise_if is_seen at.now) }
{
    if is_seen {
        Ok(Stacking::Rise(at.clone()?))
    } else {
        Ok(Stacking::Same)
    }
}

/// An event without data.
fn event(source: ObjRef, kind: EventType) -> Item
    ensures { result ≡ plain_event source kind }
{
    Item::Emit(Event {
        source,
        kind,
        data: None,
    })
}
