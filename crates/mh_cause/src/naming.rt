//! Words for objects, and their classes.
ghost use Rattle.std.specs.Prelude.{◌≡◌, ◌++◌, OnOk};
ghost use Rattle.std.specs.Option.{option_copied};
ghost use Rattle.mh_cause.specs.Naming.{class_at, class_in, holder_words, named, numbered_words, parameter_words};

use crate::acts::part_of;
use mh_base::ObjRef;
use mh_group::{ActionName, Class};
use mh_model::Fixed;
use mh_service::Service;
use mh_told::text::Text;
use std::alloc::AllocError;

/// Puts the object with this number; the group itself has number 0.
#[tactic(auto, unfolding(crate::specs::Naming::numbered_words))]
pub(crate) fn put_numbered(text: &mut Text, group: &[u8], number: u32) -> Result<(), AllocError>
    ensures { OnOk result (text.new ≡ text.old ++ numbered_words group.now number) }
{
    if number == 0 {
        text.put(b"the group ")?;
        return text.put(group);
    }
    text.put(b"object ")?;
    text.put_number(u64::from(number))?;
    text.put(b" of ")?;
    text.put(group)
}

pub(crate) fn put_named(text: &mut Text, at: &ObjRef) -> Result<(), AllocError>
    ensures { OnOk result (text.new ≡ text.old ++ named at.now) }
{
    put_numbered(text, at.group.as_bytes(), at.number)
}

/// Puts the variable or the list that may hold a reference, if there is one.
pub(crate) fn put_holder(text: &mut Text, holder: Option<&ObjRef>) -> Result<(), AllocError>
    ensures { OnOk result (text.new ≡ text.old ++ holder_words (option_copied holder.entry)) }
{
    match holder {
        Some(at) => put_named(text, at),
        None => text.put(b"a variable"),
    }
}

/// Puts a parameter of an action, by its number.
#[tactic(auto, unfolding(crate::specs::Naming::parameter_words))]
pub(crate) fn put_parameter(
    text: &mut Text,
    action: ActionName,
    number: usize,
) -> Result<(), AllocError>
    ensures { OnOk result (text.new ≡ text.old ++ parameter_words action number) }
{
    text.put(b"parameter ")?;
    text.put_number(number as u64)?;
    text.put(b" of ")?;
    text.put(action.word())
}

/// The class of an object as its file says it.
#[tactic(auto, unfolding(crate::specs::Naming::class_at))]
pub(crate) fn class_at(service: &Service, at: &ObjRef) -> Option<Class>
    ensures { result ≡ class_at service.now at.now }
{
    class_in(part_of(service, &at.group, at.number))
}

fn class_in(part: Option<&Fixed>) -> Option<Class>
    ensures { result ≡ class_in (option_copied part.entry) }
{
    match part {
        Some(part) => Some(part.class),
        None => None,
    }
}
