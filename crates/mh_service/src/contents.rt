//! `ContentNames`: which content files a service names.
//!
//! Promise: exactly the names that some object holds, or that some action of an effect writes as a
//! value. What is in the files is left to the machine, which is given them.
ghost use Rattle.std.specs.Prelude.{◌≡◌, ◌++◌, IfOk, OnOk};
ghost use Rattle.std.specs.List.{flat_map, list_any};
ghost use Rattle.std.specs.Option.{option_copied};
ghost use Rattle.std.specs.Str.{bytes_eq};
ghost use Rattle.mh_model.specs.Property.{held};
ghost use Rattle.mh_service.specs.Contents.{AreFilesOf, files, parts_files, part_files};
ghost use Rattle.mh_service.specs.Contents.{held_files, act_files, acts_files, member_files, argument_files, value_files};

use crate::Service;
use indexmap::IndexSet;
use mh_base::{GroupName, Seq, Value};
use mh_group::Attribute;
use mh_model::{Act, Argument, Effect, Fixed, FixedPart, Held, Member};
use std::alloc::{AllocError, Global};
use std::marker::Model;

/// All attributes, in the order of their numbers.
const ATTRIBUTES: [Attribute; 38] = [
    Attribute::OnStartUp,
    Attribute::OnCloseDown,
    Attribute::Items,
    Attribute::InputEventReg,
    Attribute::SceneCs,
    Attribute::InitiallyActive,
    Attribute::Shared,
    Attribute::EventSource,
    Attribute::EventType,
    Attribute::EventData,
    Attribute::LinkEffect,
    Attribute::OrigValue,
    Attribute::OrigBoxSize,
    Attribute::OrigPosition,
    Attribute::OrigLineWidth,
    Attribute::OrigRefLineColour,
    Attribute::OrigRefFillColour,
    Attribute::OrigContent,
    Attribute::TextColour,
    Attribute::BackgroundColour,
    Attribute::HJustification,
    Attribute::TextWrapping,
    Attribute::MaxLength,
    Attribute::OrigLabel,
    Attribute::MovementTable,
    Attribute::TokenGroupItems,
    Attribute::Positions,
    Attribute::WrapAround,
    Attribute::MultipleSelection,
    Attribute::Name,
    Attribute::CHook,
    Attribute::OrigFont,
    Attribute::FontAttributes,
    Attribute::OrigGcPriority,
    Attribute::ObjectInfo,
    Attribute::StdId,
    Attribute::StdVersion,
    Attribute::NextScenes,
];

/// The names of the content files that a service names. A contract sees their list.
#[derive(Drop)]
pub struct ContentNames {
    names: IndexSet<GroupName>,
}

impl Model for ContentNames {
    ghost use Rattle.std.specs.Prelude.{ℕ, List};

    ghost Value = { List (List ℕ) };

    ghost view = { λ c. c.names.keys };
}

impl ContentNames {
    /// Whether the service names a content file of this name. It is looked up by hash.
    pub fn has(&self, name: &GroupName) -> bool
        ensures { result ≡ list_any (bytes_eq name.now) self.now }
    {
        self.names.contains(name)
    }

    /// The names, each once, in the order in which the service names them first.
    pub fn to_list(&self, alloc: Global) -> Result<Seq<GroupName>, AllocError>
        ensures { IfOk result (λ names. names ≡ self.now) }
    {
        let mut names = Seq::new(alloc);
        for name in self.names.iter() {
            names.push(name.clone()?)?;
        }
        Ok(names)
    }
}

impl Service {
    /// The names of the content files that it names (ISO/IEC 13522-5, referenced content).
    pub fn content_names(&self, alloc: Global) -> Result<ContentNames, AllocError>
        ensures { IfOk result (λ names. AreFilesOf self.now names) }
    {
        let named = self.named(alloc)?;
        let names = each_once(alloc, named.as_slice())?;
        Ok(ContentNames { names })
    }

    /// The names, as often as they are named.
    fn named(&self, alloc: Global) -> Result<Vec<GroupName>, AllocError>
        ensures { IfOk result (λ named. named.items ≡ files self.now) }
    {
        let mut named = Vec::new(alloc);
        for parts in self.groups().values() {
            push_parts(&mut named, parts.as_slice())?;
        }
        Ok(named)
    }
}

/// The set of these names, in which they are looked up by hash.
pub fn each_once(alloc: Global, named: &[GroupName]) -> Result<IndexSet<GroupName>, AllocError>
    ensures { (name : _) → IfOk result (λ names. list_any (bytes_eq name) names.keys
        ≡ list_any (bytes_eq name) named.now) }
{
    let mut names: IndexSet<GroupName> = IndexSet::new(alloc);
    for name in named {
        names.insert(name.clone()?)?;
    }
    Ok(names)
}

fn push_parts(named: &mut Vec<GroupName>, parts: &[FixedPart]) -> Result<(), AllocError>
    ensures { OnOk result (named.new.items ≡ named.old.items ++ parts_files parts.now) }
{
    for part in parts {
        push_part(named, part.get())?;
    }
    Ok(())
}

fn push_part(named: &mut Vec<GroupName>, part: &Fixed) -> Result<(), AllocError>
    ensures { OnOk result (named.new.items ≡ named.old.items ++ part_files part.now) }
{
    push_under(named, part, &ATTRIBUTES)
}

/// What is held under these attributes.
fn push_under(
    named: &mut Vec<GroupName>,
    part: &Fixed,
    attributes: &[Attribute],
) -> Result<(), AllocError>
    ensures { OnOk result (named.new.items ≡ named.old.items
        ++ flat_map (λ a. held_files (held a part.now.properties)) attributes.now) }
{
    for attribute in attributes {
        push_held(named, part.properties.get(*attribute))?;
    }
    Ok(())
}

fn push_held(named: &mut Vec<GroupName>, held: Option<&Held>) -> Result<(), AllocError>
    ensures { OnOk result (named.new.items
        ≡ named.old.items ++ held_files (option_copied held.entry)) }
{
    match held {
        Some(Held::Value(value)) => push_value(named, value),
        Some(Held::Effect(effect)) => push_acts(named, effect.as_slice()),
        Some(Held::Members(members)) => push_members(named, members.as_slice()),
        _ => Ok(()),
    }
}

fn push_members(named: &mut Vec<GroupName>, members: &[Member]) -> Result<(), AllocError>
    ensures { OnOk result (named.new.items ≡ named.old.items ++ flat_map member_files members.now) }
{
    for member in members {
        push_slots(named, member.slots.as_slice())?;
    }
    Ok(())
}

fn push_slots(named: &mut Vec<GroupName>, slots: &[Effect]) -> Result<(), AllocError>
    ensures { OnOk result (named.new.items ≡ named.old.items ++ flat_map acts_files slots.now) }
{
    for slot in slots {
        push_acts(named, slot.as_slice())?;
    }
    Ok(())
}

fn push_acts(named: &mut Vec<GroupName>, acts: &[Act]) -> Result<(), AllocError>
    ensures { OnOk result (named.new.items ≡ named.old.items ++ acts_files acts.now) }
{
    for act in acts {
        push_arguments(named, act.arguments.as_slice())?;
    }
    Ok(())
}

fn push_arguments(named: &mut Vec<GroupName>, arguments: &[Argument]) -> Result<(), AllocError>
    ensures { OnOk result (named.new.items
        ≡ named.old.items ++ flat_map argument_files arguments.now) }
{
    for argument in arguments {
        push_argument(named, argument)?;
    }
    Ok(())
}

fn push_argument(named: &mut Vec<GroupName>, argument: &Argument) -> Result<(), AllocError>
    ensures { OnOk result (named.new.items ≡ named.old.items ++ argument_files argument.now) }
{
    match argument {
        Argument::Direct(value) => push_value(named, value),
        _ => Ok(()),
    }
}

/// The name, where the value is one.
fn push_value(named: &mut Vec<GroupName>, value: &Value) -> Result<(), AllocError>
    ensures { OnOk result (named.new.items ≡ named.old.items ++ value_files value.now) }
{
    if let Value::Content(name) = value {
        named.push(name.clone()?)?;
    }
    Ok(())
}
