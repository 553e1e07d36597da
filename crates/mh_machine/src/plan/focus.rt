//! Who interacts, and what a key does to it.
ghost use Rattle.std.specs.Prelude.{◌≡◌, ◌+◌, ◌<◌, ◌^◌, ◌++◌, None, if◌then◌else◌, IfOk, OnOk, OnErr};
ghost use Rattle.mh_model.specs.Service.{object_at, parts};
ghost use Rattle.mh_model.specs.State.{all};
ghost use Rattle.mh_model.specs.Step.{pressed_at};
ghost use Rattle.mh_model.specs.Worked.{ended_of, is_interacting};
ghost use Rattle.mh_machine.specs.Plans.{changed_as, change_at, interacted};
ghost use Rattle.mh_machine.specs.Taking.{shifted};

use crate::plan::Interacting;
use crate::stage::Stage;
use crate::works::Works;
use mh_base::{ObjRef, both};
use mh_model::parts::same_ref;
use mh_model::{Edit, Interaction, Item, Key};
use mh_widgets::Pressed;
use mh_widgets::fields::pressed;
use mh_work::Work;
use mh_work::lifecycle::push_items;
use std::alloc::{AllocError, Global};

impl Works {
    /// A key that goes to the object that interacts. Where that is no longer there nothing is done.
    pub(crate) fn press(&mut self, key: Key, begun: &Interaction) -> Result<(), AllocError>
        requires { self.old.state.taken + 1 < 2 ^ 64 }
        ensures done { let found = object_at begun.now.object (all self.old.state.objects) in
            OnOk result (self.new.state ≡ pressed_at key begun.now found (shifted self.old.state)) }
        ensures kept { OnErr result (self.new.state ≡ self.old.state) }
    {
        let Some(object) = self.stage.objects().get(&begun.object) else {
            self.shift();
            return Ok(());
        };
        let pressed = pressed(self.alloc, key, &begun.before, &begun.object, object)?;
        self.take_pressed(&begun.object, pressed)?;
        Ok(())
    }

    /// What a key made of the object is carried out, for the key that waits first.
    fn take_pressed(&mut self, at: &ObjRef, pressed: Pressed) -> Result<(), AllocError>
        requires { self.old.state.taken + 1 < 2 ^ 64 }
        ensures done { let after = changed_as (change_at at.now pressed.edit) self.old.state.objects in
            let stays = if pressed.ends then None else self.old.state.interaction in
            OnOk result (self.new.state ≡ record (shifted self.old.state)
            { objects = after; interaction = stays; work = pressed.items.items }) }
        ensures kept { OnErr result (self.new.state ≡ self.old.state) }
    {
        let Pressed { edit, items, ends } = pressed;
        let (work, edit) = both(work_of(self.alloc, items), Ok(edit))?;
        let work = change_body(&mut self.stage, at, edit).and(Ok(work))?;
        end_if(&mut self.interaction, ends);
        self.work = work;
        self.agenda.take_first();
        self.taken += 1;
        Ok(())
    }
}

/// Changes the body of the object at this reference, if anything is changed.
pub fn change_body(stage: &mut Stage, at: &ObjRef, edit: Option<Edit>) -> Result<(), AllocError>
    ensures changed { OnOk result (stage.new.objects
        ≡ changed_as (change_at at.now edit) stage.old.objects) }
    ensures stack { stage.new.stack ≡ stage.old.stack }
    ensures own { parts stage.new.objects.application ≡ parts stage.old.objects.application }
    ensures others { parts stage.new.objects.scene ≡ parts stage.old.objects.scene }
    ensures kept { OnErr result (stage.new.objects ≡ stage.old.objects) }
{
    match edit {
        Some(edit) => stage.edit(at, edit),
        None => Ok(()),
    }
}

/// The work list of these items.
fn work_of(alloc: Global, items: Vec<Item>) -> Result<Work, AllocError>
    ensures { IfOk result (λ work. work.items ≡ items.items) }
{
    let mut batches = Vec::new(alloc);
    push_items(&mut batches, items)?;
    Work::of_batches(alloc, batches)
}

fn end_if(interaction: &mut Option<Interaction>, ends: bool)
    ensures { interaction.new ≡ (if ends then None else interaction.old) }
{
    if ends {
        *interaction = None;
    }
}

/// Notes who interacts.
pub fn interact(interaction: &mut Option<Interaction>, interacting: Interacting)
    ensures { interaction.new ≡ interacted interacting interaction.old }
{
    match interacting {
        Interacting::Same => {}
        Interacting::Ends(at) => end_of(interaction, &at),
        Interacting::Begins(begun) => *interaction = Some(begun),
    }
}

/// The object interacts no longer, if it did.
pub fn end_of(interaction: &mut Option<Interaction>, at: &ObjRef)
    ensures { interaction.new ≡ ended_of at.now interaction.old }
{
    if is_interacting(at, interaction) {
        *interaction = None;
    }
}

/// Whether it is the object at this reference that interacts.
pub fn is_interacting(at: &ObjRef, interaction: &Option<Interaction>) -> bool
    ensures { result ≡ is_interacting at.now interaction.now }
{
    match interaction {
        Some(begun) => same_ref(at, &begun.object),
        None => false,
    }
}

/// A copy of who interacts, which shares octets with it.
pub fn copied_interaction(
    interaction: &Option<Interaction>,
) -> Result<Option<Interaction>, AllocError>
    ensures { IfOk result (λ copy. copy ≡ interaction.now) }
{
    match interaction {
        Some(begun) => Ok(Some(Interaction {
            object: begun.object.clone()?,
            before: begun.before.clone()?,
        })),
        None => Ok(None),
    }
}
