//! What events, entrances and actions do. What an action does to its target is said by `mh_actions`.
ghost use Rattle.std.specs.Prelude.{◌≡◌, ◌∷◌, ◌++◌, [], ◌+◌, ◌<◌, ◌^◌, IfOk, OnOk, OnErr, Some};
ghost use Rattle.std.specs.Option.{option_copied};
ghost use Rattle.mh_model.specs.State.{all};
ghost use Rattle.mh_model.specs.Step.{done};
ghost use Rattle.mh_model.specs.Arguments as said;
ghost use Rattle.mh_model.specs.Bodies.{changed_by};
ghost use Rattle.mh_model.specs.Rules.{act_on, change_rule, put_rule, whole_rule, timer_rule, locked, unlocked, noted};
ghost use Rattle.mh_machine.specs.Plans.{taken_from, MakesFound};

use crate::plan::Plan;
use crate::works::Works;
use mh_actions::arguments::{referred, values};
use mh_actions::changes::edit_with;
use mh_actions::putting::put_items;
use mh_base::{GroupName, ObjRef};
use mh_group::ActionName;
use mh_model::sort::{Sort, sort_of};
use mh_model::{Act, Argument, Edit, Event, Item, Object, Target, Waiting};
use mh_store::Objects;
use mh_work::groups::entering;
use std::alloc::{AllocError, Global};

/// The most items that one action puts.
pub(crate) const MOST_PUT: usize = 2;

impl Works {
    /// An event: the actions of all links that hear it, at once or when it is taken from the queue.
    pub(crate) fn do_emit(&mut self, event: &Event) -> Result<(), AllocError>
        requires { self.old.state.taken + 1 < 2 ^ 64 }
        ensures done { OnOk result (self.new.state ≡ done (Item.Emit event.now) self.old.state) }
        ensures kept { OnErr result (self.new.state ≡ self.old.state) }
    {
        if event.kind.is_sync() {
            let batches = self.links.heard(self.alloc, event, self.stage.objects())?;
            self.commit_batches(batches)
        } else {
            self.do_wait(event)
        }
    }

    /// An event that is taken from the queue later.
    #[inline(never)]
    fn do_wait(&mut self, event: &Event) -> Result<(), AllocError>
        requires { self.old.state.taken + 1 < 2 ^ 64 }
        ensures done { let queue = self.old.state.queue ++ Waiting.Event event.now ∷ [] in
            OnOk result (self.new.state ≡ record (taken_from self.old.state) { queue = queue }) }
        ensures kept { OnErr result (self.new.state ≡ self.old.state) }
    {
        let event = event.clone()?;
        self.commit(Plan::waiting(self.alloc, event))
    }

    /// A group whose objects are there is entered.
    #[inline(never)]
    pub(crate) fn do_enter(&mut self, group: &GroupName) -> Result<(), AllocError>
        requires { self.old.state.taken + 1 < 2 ^ 64 }
        ensures done { OnOk result (self.new.state ≡ done (Item.Enter group.now) self.old.state) }
        ensures kept { OnErr result (self.new.state ≡ self.old.state) }
    {
        let batches = entering(self.alloc, group, self.service.parts(group))?;
        self.commit_batches(batches)?;
        self.note_entry(group);
        Ok(())
    }

    /// Notes the moment in which a group is entered.
    fn note_entry(&mut self, group: &GroupName)
        ensures { self.new.state ≡ record self.old.state { moments = noted group.now self.old.state } }
    {
        self.agenda.note_entry(&self.application, group);
    }

    /// An action that is not stuck.
    pub(crate) fn do_act(&mut self, act: &Act) -> Result<(), AllocError>
        requires { self.old.state.taken + 1 < 2 ^ 64 }
        ensures done { OnOk result (self.new.state ≡ done (Item.Act act.now) self.old.state) }
        ensures kept { OnErr result (self.new.state ≡ self.old.state) }
    {
        match &act.target {
            Target::Direct(at) => self.do_at(act, at),
            Target::Through(_) => self.do_through(act),
        }
    }

    /// An action whose target is found through a variable, or not at all.
    #[inline(never)]
    fn do_through(&mut self, act: &Act) -> Result<(), AllocError>
        requires { self.old.state.taken + 1 < 2 ^ 64 }
        ensures done { OnOk result (self.new.state ≡ done (Item.Act act.now) self.old.state) }
        ensures kept { OnErr result (self.new.state ≡ self.old.state) }
    {
        match copied(referred(self.stage.objects(), &act.target))? {
            Some(at) => self.do_at(act, &at),
            None => {
                self.pass();
                Ok(())
            }
        }
    }

    /// An action whose target comes to this reference.
    fn do_at(&mut self, act: &Act, at: &ObjRef) -> Result<(), AllocError>
        requires { self.old.state.taken + 1 < 2 ^ 64 }
        ensures done { OnOk result (self.new.state
            ≡ act_on (Some at.now) act.now.name act.now.arguments (taken_from self.old.state)) }
        ensures kept { OnErr result (self.new.state ≡ self.old.state) }
    {
        match sort_of(act.name) {
            Sort::Change => self.do_change(act, at),
            Sort::Ask => self.do_ask(act, at),
            Sort::Put => self.do_put(act, at),
            Sort::Load => self.do_load(act, at),
            Sort::Call => self.do_call(act, at),
            Sort::Order => self.do_order(act, at),
            Sort::Widget => self.do_widget(act, at),
            Sort::Interact => self.do_interact(act, at),
            Sort::Whole => self.do_whole(act, at),
        }
    }

    /// An action that changes the body of its target.
    fn do_change(&mut self, act: &Act, at: &ObjRef) -> Result<(), AllocError>
        requires { self.old.state.taken + 1 < 2 ^ 64 }
        ensures done { let values = said.values (all self.old.state.objects) act.now.arguments in
            OnOk result (self.new.state
            ≡ change_rule act.now.name values at.now (taken_from self.old.state)) }
        ensures kept { OnErr result (self.new.state ≡ self.old.state) }
    {
        let objects = self.stage.objects();
        let arguments = act.arguments.as_slice();
        let edit = edit_of(self.alloc, objects, act.name, arguments, objects.get(at))?;
        self.commit_change(at, edit)?;
        Ok(())
    }

    /// An action that puts items. Room for them is made before they are.
    fn do_put(&mut self, act: &Act, at: &ObjRef) -> Result<(), AllocError>
        requires { self.old.state.taken + 1 < 2 ^ 64 }
        ensures done { let values = said.values (all self.old.state.objects) act.now.arguments in
            OnOk result (self.new.state
            ≡ put_rule act.now.name values at.now (taken_from self.old.state)) }
        ensures kept { OnErr result (self.new.state ≡ self.old.state) }
    {
        self.work.reserve(MOST_PUT)?;
        let values = values(self.alloc, self.stage.objects(), act.arguments.as_slice())?;
        let found = self.stage.objects().get(at);
        let put = put_items(act.name, values.as_slice(), at, found)?;
        self.work.put_by_act(put);
        self.taken += 1;
        Ok(())
    }

    /// An action that is a matter of the whole machine.
    #[inline(never)]
    fn do_whole(&mut self, act: &Act, at: &ObjRef) -> Result<(), AllocError>
        requires { self.old.state.taken + 1 < 2 ^ 64 }
        ensures done { let values = said.values (all self.old.state.objects) act.now.arguments in
            OnOk result (self.new.state
            ≡ whole_rule act.now.name values at.now (taken_from self.old.state)) }
        ensures kept { OnErr result (self.new.state ≡ self.old.state) }
    {
        match act.name {
            ActionName::TransitionTo | ActionName::Launch | ActionName::Quit => {
                self.do_transition(act.name, at)
            }
            ActionName::SetTimer => self.do_timer(act, at),
            ActionName::LockScreen => Ok(self.lock()),
            ActionName::UnlockScreen => Ok(self.unlock()),
            _ => Ok(self.pass()),
        }
    }

    /// A timer of the target is set or cancelled.
    fn do_timer(&mut self, act: &Act, at: &ObjRef) -> Result<(), AllocError>
        requires { self.old.state.taken + 1 < 2 ^ 64 }
        ensures done { let values = said.values (all self.old.state.objects) act.now.arguments in
            OnOk result (self.new.state ≡ timer_rule values at.now (taken_from self.old.state)) }
        ensures kept { OnErr result (self.new.state ≡ self.old.state) }
    {
        let values = values(self.alloc, self.stage.objects(), act.arguments.as_slice())?;
        self.agenda
            .set_timers(values.as_slice(), &self.application, &at.group)?;
        self.pass();
        Ok(())
    }

    /// The first lock keeps the picture that is there.
    fn lock(&mut self)
        requires { self.old.state.taken + 1 < 2 ^ 64 }
        ensures { self.new.state ≡ locked (taken_from self.old.state) }
    {
        if self.locks == 0 {
            self.frozen.copy_from(self.stage.picture());
        }
        self.locks += 1;
        self.work.take_first();
        self.taken += 1;
    }

    fn unlock(&mut self)
        requires { self.old.state.taken + 1 < 2 ^ 64 }
        ensures { self.new.state ≡ unlocked (taken_from self.old.state) }
    {
        self.pass();
        self.locks = self.locks.saturating_sub(1);
    }
}

fn copied(at: Option<&ObjRef>) -> Result<Option<ObjRef>, AllocError>
    ensures { IfOk result (λ copy. copy ≡ option_copied at.entry) }
{
    match at {
        Some(at) => Ok(Some(at.clone()?)),
        None => Ok(None),
    }
}

/// What an action changes of its target, where that is there.
fn edit_of(
    alloc: Global,
    objects: &Objects,
    name: ActionName,
    arguments: &[Argument],
    found: Option<&Object>,
) -> Result<Option<Edit>, AllocError>
    ensures { let values = said.values (all objects.now) arguments.now in
        IfOk result (λ edit. MakesFound edit (changed_by name values) (option_copied found.entry)) }
{
    let Some(object) = found else {
        return Ok(None);
    };
    let edit = edit_with(alloc, objects, name, arguments, object)?;
    Ok(edit)
}
