//! References and values that a group writes, resolved.
//!
//! Promise: `BadName` is answered exactly where a written name leads to no path.
ghost use Rattle.std.specs.Prelude.{◌≡◌};
ghost use Rattle.mh_service.specs.Gives.{Gives};
ghost use Rattle.mh_service.specs.Resolved.{ref_of, leads, name_leads, object_value, content_value, content_of, content_leads, data_of};

use mh_base::{GroupName, NameError, ObjRef, Value};
use mh_group::{Content, EventData, Ref, WrittenName};
use std::alloc::Global;

/// The object to which a reference leads that the group `from` writes.
pub(crate) fn reference(alloc: Global, from: &GroupName, written: &Ref) -> Result<ObjRef, NameError>
    ensures { Gives (λ x. x) result (ref_of from.now written.now) (leads from.now written.now) }
{
    match written {
        Ref::Here(number) => Ok(ObjRef {
            group: from.clone()?,
            number: number.get(),
        }),
        Ref::In(name, number) => Ok(ObjRef {
            group: GroupName::resolve(alloc, from, name.as_bytes())?,
            number: number.get(),
        }),
    }
}

pub(crate) fn data_of(written: &EventData) -> Value
    ensures { result ≡ data_of written.now }
{
    match written {
        EventData::Bool(truth) => Value::Bool(*truth),
        EventData::Int(number) => Value::Int(*number),
    }
}

/// Content in the group's file, or the name of its own.
pub(crate) fn content_of_file(
    alloc: Global,
    from: &GroupName,
    content: &Content,
) -> Result<Value, NameError>
    ensures { Gives (λ x. x) result (content_of from.now content.now)
        (content_leads from.now content.now) }
{
    match content {
        Content::Included(octets) => Ok(Value::Octets(octets.clone()?)),
        Content::Referenced(name) => content_value(alloc, from, name),
    }
}

/// The content file to which a name leads that the group `from` writes.
pub(crate) fn content_value(
    alloc: Global,
    from: &GroupName,
    name: &WrittenName,
) -> Result<Value, NameError>
    ensures { Gives (λ x. x) result (content_value from.now name.now)
        (name_leads from.now name.now) }
{
    let file = GroupName::resolve(alloc, from, name.as_bytes())?;
    Ok(Value::Content(file))
}

pub(crate) fn object_value(
    alloc: Global,
    from: &GroupName,
    written: &Ref,
) -> Result<Value, NameError>
    ensures { Gives (λ x. x) result (object_value from.now written.now)
        (leads from.now written.now) }
{
    let object = reference(alloc, from, written)?;
    Ok(Value::Object(object))
}
