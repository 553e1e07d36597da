//! What the actions of widgets do, who interacts, and where what a list shows is placed.
ghost use Rattle.std.specs.Prelude.{◌≡◌, ◌+◌, ◌<◌, ◌^◌, IfOk, OnOk, OnErr};
ghost use Rattle.std.specs.Option.{option_copied};
ghost use Rattle.mh_model.specs.Arguments as said;
ghost use Rattle.mh_model.specs.Bodies.{text_of};
ghost use Rattle.mh_model.specs.Lifecycle.{places_of, run_places};
ghost use Rattle.mh_model.specs.Rules.{interact_rule, widget_rule};
ghost use Rattle.mh_model.specs.Saying.{interaction_items};
ghost use Rattle.mh_model.specs.State.{all};
ghost use Rattle.mh_work.specs.Batches.{written};
ghost use Rattle.mh_machine.specs.Plans.{begins_as, change_with, committed, interacting_as, taken_from};

use crate::plan::answering::gifts_of;
use crate::plan::focus::is_interacting;
use crate::plan::{Awaiting, Change, Interacting, Plan, Stacking};
use crate::works::Works;
use mh_actions::arguments::{receivers, values};
use mh_base::{EventType, ObjRef, Octets, Seq, Value, both};
use mh_group::{ActionName, Class, Position};
use mh_model::{Act, Edit, Interaction, Item, Object};
use mh_widgets::lists::list_started;
use mh_widgets::{Done, worked};
use mh_work::Batch;
use mh_work::groups::{plain_event, push};
use mh_work::lifecycle::push_items;
use std::alloc::{AllocError, Global};
use std::slice;

impl Works {
    /// An action that works a widget.
    #[inline(never)]
    pub(crate) fn do_widget(&mut self, act: &Act, at: &ObjRef) -> Result<(), AllocError>
        requires { self.old.state.taken + 1 < 2 ^ 64 }
        ensures done { let values = said.values (all self.old.state.objects) act.now.arguments in
            OnOk result (self.new.state
            ≡ widget_rule act.now.name values at.now (taken_from self.old.state)) }
        ensures kept { OnErr result (self.new.state ≡ self.old.state) }
    {
        let plan = self.plan_widget(act, at)?;
        self.commit(plan)
    }

    fn plan_widget(&self, act: &Act, at: &ObjRef) -> Result<Plan, AllocError>
        ensures { let values = said.values (all self.now.state.objects) act.now.arguments in
            IfOk result (λ plan. committed plan self.now.state
            ≡ widget_rule act.now.name values at.now (taken_from self.now.state)) }
    {
        let objects = self.stage.objects();
        let Some(object) = objects.get(at) else {
            return Ok(Plan::nothing(self.alloc));
        };
        let values = values(self.alloc, objects, act.arguments.as_slice())?;
        let done = worked(self.alloc, act.name, values.as_slice(), at, object)?;
        let made = both(at.clone(), batches_of(self.alloc, done.items));
        let ((at, batches), (edit, placed)) = both(made, Ok((done.edit, done.placed)))?;
        let change = change_of(at, edit, placed);
        Ok(Plan::of(change, Stacking::Same, Awaiting::Same, batches))
    }

    /// An action that sets or asks who interacts.
    #[inline(never)]
    pub(crate) fn do_interact(&mut self, act: &Act, at: &ObjRef) -> Result<(), AllocError>
        requires { self.old.state.taken + 1 < 2 ^ 64 }
        ensures done { let values = said.values (all self.old.state.objects) act.now.arguments in
            OnOk result (self.new.state
            ≡ interact_rule act.now.name values (said.receivers act.now.arguments) at.now
            (taken_from self.old.state)) }
        ensures kept { OnErr result (self.new.state ≡ self.old.state) }
    {
        let plan = self.plan_interact(act, at)?;
        self.commit(plan)
    }

    fn plan_interact(&self, act: &Act, at: &ObjRef) -> Result<Plan, AllocError>
        ensures { let values = said.values (all self.now.state.objects) act.now.arguments in
            IfOk result (λ plan. committed plan self.now.state
            ≡ interact_rule act.now.name values (said.receivers act.now.arguments) at.now
            (taken_from self.now.state)) }
    {
        match act.name {
            ActionName::SetInteractionStatus => self.plan_interaction(act, at),
            ActionName::GetInteractionStatus => self.plan_interaction_asked(act, at),
            _ => Ok(Plan::nothing(self.alloc)),
        }
    }

    fn plan_interaction(&self, act: &Act, at: &ObjRef) -> Result<Plan, AllocError>
        ensures { let values = said.values (all self.now.state.objects) act.now.arguments in
            IfOk result (λ plan. committed plan self.now.state
            ≡ interact_rule ActionName.SetInteractionStatus values (said.receivers act.now.arguments)
            at.now (taken_from self.now.state)) }
    {
        let objects = self.stage.objects();
        let values = values(self.alloc, objects, act.arguments.as_slice())?;
        let interacts = is_interacting(at, &self.interaction);
        let found = objects.get(at);
        let interacting = interacting_by(self.alloc, values.as_slice(), interacts, at, found);
        let batches = interaction_batches(self.alloc, values.as_slice(), interacts, at);
        let (interacting, batches) = both(interacting, batches)?;
        Ok(Plan::interacting(Change::Nothing, interacting, batches))
    }

    fn plan_interaction_asked(&self, act: &Act, at: &ObjRef) -> Result<Plan, AllocError>
        ensures { let values = said.values (all self.now.state.objects) act.now.arguments in
            IfOk result (λ plan. committed plan self.now.state
            ≡ interact_rule ActionName.GetInteractionStatus values (said.receivers act.now.arguments)
            at.now (taken_from self.now.state)) }
    {
        let receivers = receivers(self.alloc, act.arguments.as_slice())?;
        let told = Value::Bool(is_interacting(at, &self.interaction));
        let gifts = gifts_of(self.alloc, receivers.as_slice(), slice::from_ref(&told))?;
        Ok(Plan::changing(self.alloc, Change::Give(Seq::from_vec(gifts))))
    }
}

/// These items as batches.
fn batches_of(alloc: Global, items: Vec<Item>) -> Result<Vec<Batch>, AllocError>
    ensures { IfOk result (λ batches. written batches.items ≡ items.items) }
{
    let mut batches = Vec::new(alloc);
    push_items(&mut batches, items)?;
    Ok(batches)
}

/// What is changed of the object at this reference, if anything is, and what is placed with it.
pub fn change_of(at: ObjRef, edit: Option<Edit>, placed: Vec<(ObjRef, Position)>) -> Change
    ensures { result ≡ change_with at edit placed.items }
{
    let Some(edit) = edit else {
        return Change::Nothing;
    };
    let placed = Seq::from_vec(placed);
    if placed.is_empty() {
        Change::Edit(at, edit)
    } else {
        Change::Place(at, edit, placed)
    }
}

/// Where a list that begins to run places what it shows.
pub fn run_places(
    alloc: Global,
    at: &ObjRef,
    found: Option<&Object>,
) -> Result<Vec<(ObjRef, Position)>, AllocError>
    ensures { IfOk result (λ placed. placed.items ≡ run_places (option_copied found.entry)) }
{
    match found {
        Some(object) if !object.body.running => places_of(alloc, at, object),
        _ => Ok(Vec::new(alloc)),
    }
}

fn places_of(
    alloc: Global,
    at: &ObjRef,
    object: &Object,
) -> Result<Vec<(ObjRef, Position)>, AllocError>
    ensures { IfOk result (λ placed. placed.items ≡ places_of object.now.fixed.class object.now) }
{
    match object.fixed.get().class {
        Class::ListGroup => {
            let Done { placed, .. } = list_started(alloc, at, object)?;
            Ok(placed)
        }
        _ => Ok(Vec::new(alloc)),
    }
}

/// What becomes of who interacts, by these values, which are said of the object at this reference.
fn interacting_by(
    alloc: Global,
    values: &[Value],
    interacts: bool,
    at: &ObjRef,
    found: Option<&Object>,
) -> Result<Interacting, AllocError>
    ensures { IfOk result (λ x. x
        ≡ interacting_as values.now interacts at.now (option_copied found.entry)) }
{
    match values {
        [Value::Bool(true)] => begun(alloc, interacts, at, found),
        [Value::Bool(false)] => Ok(Interacting::Ends(at.clone()?)),
        _ => Ok(Interacting::Same),
    }
}

/// An object that runs, and does not interact yet, begins to.
fn begun(
    alloc: Global,
    interacts: bool,
    at: &ObjRef,
    found: Option<&Object>,
) -> Result<Interacting, AllocError>
    ensures { IfOk result (λ x. x ≡ begins_as interacts at.now (option_copied found.entry)) }
{
    match found {
        Some(object) if object.body.running && !interacts => {
            let object_ref = at.clone()?;
            let before = text_of(alloc, object)?;
            Ok(Interacting::Begins(Interaction {
                object: object_ref,
                before,
            }))
        }
        _ => Ok(Interacting::Same),
    }
}

/// The text of the object, which shares its octets.
fn text_of(alloc: Global, object: &Object) -> Result<Octets, AllocError>
    ensures { IfOk result (λ text. text ≡ text_of object.now.body) }
{
    match &object.body.text {
        Some(text) => Ok(text.clone()?),
        None => Octets::from_slice(alloc, &[]),
    }
}

/// That the interaction ends is told, where it does.
fn interaction_batches(
    alloc: Global,
    values: &[Value],
    interacts: bool,
    at: &ObjRef,
) -> Result<Vec<Batch>, AllocError>
    ensures { IfOk result (λ batches. written batches.items
        ≡ interaction_items values.now interacts at.now) }
{
    let mut batches = Vec::new(alloc);
    if let [Value::Bool(false)] = values
        && interacts
    {
        push(
            &mut batches,
            Batch::One(plain_event(at, EventType::InteractionCompleted)?),
        )?;
    }
    Ok(batches)
}
