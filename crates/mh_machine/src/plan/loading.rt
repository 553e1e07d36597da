//! Content: what an object loads, and for which file it waits where that is not there; and the place in the
//! display stack of what becomes available.
ghost use Rattle.std.specs.Prelude.{◌≡◌, ◌&&◌, ◌+◌, ◌<◌, ◌^◌, true, if◌then◌else◌, IfOk, OnOk, OnErr};
ghost use Rattle.std.specs.Option.{is_some, option_copied};
ghost use Rattle.mh_model.specs.Arguments as said;
ghost use Rattle.mh_model.specs.Files as files;
ghost use Rattle.mh_model.specs.Lifecycle.{is_visible_at, loaded_at, lacking_at};
ghost use Rattle.mh_model.specs.Rules.{load_rule, loaded_with};
ghost use Rattle.mh_model.specs.State.{all};
ghost use Rattle.mh_machine.specs.Plans.{committed, taken_from, wait_if};

use crate::plan::{Awaiting, Change, Plan, Stacking};
use crate::works::Works;
use mh_actions::arguments::values;
use mh_actions::content::new_content;
use mh_base::{GroupName, ObjRef, Octets, Value, both};
use mh_carousel::Carousel;
use mh_group::Attribute;
use mh_model::{Act, Edit, Held, Object, Wait};
use mh_work::lifecycle::{content_batches, is_available, is_visible};
use std::alloc::AllocError;

impl Works {
    /// An action that gives its target new content.
    #[inline(never)]
    pub(crate) fn do_load(&mut self, act: &Act, at: &ObjRef) -> Result<(), AllocError>
        requires { self.old.state.taken + 1 < 2 ^ 64 }
        ensures done { let values = said.values (all self.old.state.objects) act.now.arguments in
            OnOk result (self.new.state ≡ load_rule values at.now (taken_from self.old.state)) }
        ensures kept { OnErr result (self.new.state ≡ self.old.state) }
    {
        let values = values(self.alloc, self.stage.objects(), act.arguments.as_slice())?;
        match new_content(values.as_slice()) {
            Some(content) => self.replace(at, content),
            None => Ok(self.pass()),
        }
    }

    /// The object gets this content, which is loaded where it is available.
    fn replace(&mut self, at: &ObjRef, content: &Value) -> Result<(), AllocError>
        requires room { self.old.state.taken + 1 < 2 ^ 64 }
        requires loadable { files.is_loadable content.now ≡ true }
        ensures done { OnOk result
            (self.new.state ≡ loaded_with content.now at.now (taken_from self.old.state)) }
        ensures kept { OnErr result (self.new.state ≡ self.old.state) }
    {
        let plan = self.plan_load(at, content)?;
        self.commit(plan)
    }

    fn plan_load(&self, at: &ObjRef, content: &Value) -> Result<Plan, AllocError>
        requires { files.is_loadable content.now ≡ true }
        ensures { IfOk result (λ plan. committed plan self.now.state
            ≡ loaded_with content.now at.now (taken_from self.now.state)) }
    {
        let is_there = is_available(self.stage.objects().get(at));
        let text = comes_to(&self.carousel, content);
        let told = both(
            awaiting(is_there, at, missing(&self.carousel, content)),
            content_batches(self.alloc, at, is_loaded(is_there, text)),
        );
        let changed = both(at.clone(), load(content, text));
        let ((awaiting, batches), (at, edit)) = both(told, changed)?;
        let change = Change::Edit(at, edit);
        Ok(Plan::of(change, Stacking::Same, awaiting, batches))
    }
}

/// The change of an object that gets this content, and this as its text.
fn load(content: &Value, text: Option<&Octets>) -> Result<Edit, AllocError>
    ensures { IfOk result (λ edit. edit ≡ Edit.Load content.now (option_copied text.entry)) }
{
    let copy = content.clone()?;
    Ok(Edit::Load(copy, copied_text(text)?))
}

/// Whether content is loaded: the object is available, and there is a text.
fn is_loaded(is_available: bool, text: Option<&Octets>) -> bool
    ensures { result ≡ (is_available && is_some (option_copied text.entry)) }
{
    is_available && text.is_some()
}

/// What content comes to: the octets themselves, or those of the file that it names, if that is there.
fn comes_to<'a>(carousel: &'a Carousel, content: &'a Value) -> Option<&'a Octets>
    ensures { option_copied result ≡ files.comes_to carousel.now.files content.now }
{
    match content {
        Value::Octets(octets) => Some(octets),
        Value::Content(name) => carousel.content(name),
        _ => None,
    }
}

/// The file for which it has to wait.
fn missing<'a>(carousel: &Carousel, content: &'a Value) -> Option<&'a GroupName>
    ensures { option_copied result ≡ files.missing carousel.now.files content.now }
{
    match content {
        Value::Content(name) if carousel.content(name).is_none() => Some(name),
        _ => None,
    }
}

/// What is loaded of the object's content when it becomes available.
pub fn loaded<'a>(carousel: &'a Carousel, found: Option<&'a Object>) -> Option<&'a Octets>
    ensures { option_copied result
        ≡ loaded_at carousel.now.files (option_copied found.entry) }
{
    let Some(object) = found else {
        return None;
    };
    let has_content = object.fixed.get().class.has_content();
    match object.read(Attribute::OrigContent) {
        Some(Held::Value(content)) if has_content => comes_to(carousel, content),
        _ => None,
    }
}

/// The file for which the object then waits, if there is one.
pub fn lacking<'a>(carousel: &Carousel, found: Option<&'a Object>) -> Option<&'a GroupName>
    ensures { option_copied result
        ≡ lacking_at carousel.now.files (option_copied found.entry) }
{
    let Some(object) = found else {
        return None;
    };
    let has_content = object.fixed.get().class.has_content();
    match object.read(Attribute::OrigContent) {
        Some(Held::Value(content)) if has_content => missing(carousel, content),
        _ => None,
    }
}

/// Who waits behind an object that loads now, or does not.
pub fn awaiting(
    loads: bool,
    at: &ObjRef,
    lacking: Option<&GroupName>,
) -> Result<Awaiting, AllocError>
    ensures { IfOk result (λ a. a ≡ wait_if loads at.now (option_copied lacking.entry)) }
{
    if !loads {
        return Ok(Awaiting::Same);
    }
    let object = at.clone()?;
    match lacking {
        None => Ok(Awaiting::Forget(object)),
        Some(name) => Ok(Awaiting::Wait(Wait {
            object,
            name: name.clone()?,
        })),
    }
}

pub fn copied_text(text: Option<&Octets>) -> Result<Option<Octets>, AllocError>
    ensures { IfOk result (λ copy. copy ≡ option_copied text.entry) }
{
    match text {
        Some(text) => Ok(Some(text.clone()?)),
        None => Ok(None),
    }
}

/// A visible that becomes available goes on top of the display stack.
pub fn rising(rises: bool, at: &ObjRef, found: Option<&Object>) -> Result<Stacking, AllocError>
    ensures { IfOk result (λ stacking. stacking
        ≡ (if rises && is_visible_at (option_copied found.entry)
        then Stacking.Rise at.now else Stacking.Same)) }
{
    if rises && is_visible(found) {
        Ok(Stacking::Rise(at.clone()?))
    } else {
        Ok(Stacking::Same)
    }
}
