//! The beginning of the line of a step: its number, its entry, and who hears what it tells.

pub(crate) mod json;

ghost use Rattle.std.specs.Prelude.{◌≡◌, ◌++◌, ◌+◌, ◌<◌, ◌^◌, OnOk};
ghost use Rattle.std.specs.Option.{option_copied};
ghost use Rattle.mh_model.specs.Service.{parts};
ghost use Rattle.mh_model.specs.State.{all};
ghost use Rattle.mh_trace.specs.Listening.{IsIndexOf};
ghost use Rattle.mh_trace.specs.Head as spec;

use crate::directory::Directory;
use crate::ears::listening::Listening;
use crate::ears::{put_ears, put_key_note, told};
use crate::form::Form;
use crate::head::json::put_head_json;
use crate::seen::marks::place_of;
use crate::site::Site;
use crate::why::{put_operands, put_tested};
use crate::words::{put_item, put_ref, put_site, put_waiting};
use mh_actions::arguments::referred;
use mh_base::ObjRef;
use mh_machine::Machine;
use mh_model::{Input, Item, Target, Waiting};
use mh_store::Objects;
use mh_told::text::Text;
use std::alloc::{AllocError, Global};
use std::collections::VecDeque;

/// Puts the beginning of the line of the next step, which does this item, or takes what waits where there is none.
pub fn put_head(
    alloc: Global,
    form: Form,
    text: &mut Text,
    front: &Option<Item>,
    machine: &Machine,
    places: &VecDeque<Site>,
    directory: &Directory,
    listening: &Listening,
) -> Result<(), AllocError>
    requires room { machine.now.taken + 1 < 2 ^ 64 }
    requires index { IsIndexOf listening.now.entries (parts (all machine.now.objects)) }
    ensures { OnOk result (text.new
        ≡ text.old ++ spec.head_by form directory.now front.now (spec.first machine.now) machine.now places.now.items) }
{
    match form {
        Form::Text => put_head_text(alloc, text, front, machine, places, directory, listening),
        Form::Json => put_head_json(alloc, text, front, machine, places, directory, listening),
    }
}

#[tactic(auto, unfolding(crate::specs::Head::head_text))]
fn put_head_text(
    alloc: Global,
    text: &mut Text,
    front: &Option<Item>,
    machine: &Machine,
    places: &VecDeque<Site>,
    directory: &Directory,
    listening: &Listening,
) -> Result<(), AllocError>
    requires room { machine.now.taken + 1 < 2 ^ 64 }
    requires index { IsIndexOf listening.now.entries (parts (all machine.now.objects)) }
    ensures { OnOk result (text.new
        ≡ text.old ++ spec.head_text directory.now front.now (spec.first machine.now) machine.now places.now.items) }
{
    put_entry_head(alloc, text, front, machine)?;
    put_place_head(alloc, text, front, machine, places, directory)?;
    put_ears_head(alloc, text, front, machine, listening)
}

#[tactic(auto, unfolding(crate::specs::Head::entry_head))]
fn put_entry_head(
    alloc: Global,
    text: &mut Text,
    front: &Option<Item>,
    machine: &Machine,
) -> Result<(), AllocError>
    requires { machine.now.taken + 1 < 2 ^ 64 }
    ensures { OnOk result (text.new
        ≡ text.old ++ spec.entry_head front.now (spec.first machine.now) machine.now) }
{
    put_number(text, machine.taken() + 1)?;
    put_entry(alloc, text, front, machine.queue().first())?;
    put_operands(alloc, text, front, machine.objects())
}

#[tactic(auto, unfolding(crate::specs::Head::place_head))]
fn put_place_head(
    alloc: Global,
    text: &mut Text,
    front: &Option<Item>,
    machine: &Machine,
    places: &VecDeque<Site>,
    directory: &Directory,
) -> Result<(), AllocError>
    ensures { OnOk result (text.new
        ≡ text.old ++ spec.place_head directory.now front.now machine.now places.now.items) }
{
    put_place_note(text, front, places, directory)?;
    put_through(text, front, machine.objects())?;
    put_tested(alloc, text, front, machine.objects())
}

#[tactic(auto, unfolding(crate::specs::Head::ears_head))]
fn put_ears_head(
    alloc: Global,
    text: &mut Text,
    front: &Option<Item>,
    machine: &Machine,
    listening: &Listening,
) -> Result<(), AllocError>
    requires { IsIndexOf listening.now.entries (parts (all machine.now.objects)) }
    ensures { OnOk result (text.new
        ≡ text.old ++ spec.ears_head front.now (spec.first machine.now) machine.now) }
{
    let waiting = machine.queue().first();
    put_keyed(alloc, text, front, waiting, machine)?;
    let told = told(front, waiting, machine)?;
    put_ears(alloc, Form::Text, text, &told, machine.objects(), listening)?;
    Ok(())
}

#[tactic(auto, unfolding(crate::specs::Head::number_text))]
fn put_number(text: &mut Text, number: u64) -> Result<(), AllocError>
    ensures { OnOk result (text.new ≡ text.old ++ spec.number_text number) }
{
    text.put_number(number)?;
    text.put(b" ")
}

pub fn put_entry(
    alloc: Global,
    text: &mut Text,
    front: &Option<Item>,
    waiting: Option<&Waiting>,
) -> Result<(), AllocError>
    ensures { OnOk result (text.new ≡ text.old ++ spec.entry_text front.now (option_copied waiting.entry)) }
{
    match (front, waiting) {
        (Some(item), _) => put_item(alloc, text, item),
        (None, Some(waiting)) => put_waiting(alloc, text, waiting),
        (None, None) => Ok(()),
    }
}

fn put_place_note(
    text: &mut Text,
    front: &Option<Item>,
    places: &VecDeque<Site>,
    directory: &Directory,
) -> Result<(), AllocError>
    ensures { OnOk result (text.new
        ≡ text.old ++ spec.place_note directory.now (spec.place_of front.now places.now.items)) }
{
    let place = place_of(front, places)?;
    put_place_at(text, &place, directory)
}

fn put_place_at(
    text: &mut Text,
    place: &Option<Site>,
    directory: &Directory,
) -> Result<(), AllocError>
    ensures { OnOk result (text.new ≡ text.old ++ spec.place_note directory.now place.now) }
{
    match place {
        Some(site) => {
            text.put(b", ")?;
            put_site(text, site)?;
            directory.put_written(text, site)
        }
        None => Ok(()),
    }
}

fn put_through(text: &mut Text, front: &Option<Item>, objects: &Objects) -> Result<(), AllocError>
    ensures { OnOk result (text.new ≡ text.old ++ spec.through_note front.now (all objects.now)) }
{
    match front {
        Some(Item::Act(act)) => put_target_note(text, &act.target, objects),
        _ => Ok(()),
    }
}

fn put_target_note(text: &mut Text, target: &Target, objects: &Objects) -> Result<(), AllocError>
    ensures { OnOk result (text.new ≡ text.old ++ spec.target_note target.now (all objects.now)) }
{
    match target {
        Target::Direct(_) => Ok(()),
        Target::Through(_) => put_found(text, referred(objects, target)),
    }
}

fn put_found(text: &mut Text, found: Option<&ObjRef>) -> Result<(), AllocError>
    ensures { OnOk result (text.new ≡ text.old ++ spec.found_note (option_copied found.entry)) }
{
    match found {
        Some(at) => {
            text.put(b", which is ")?;
            put_ref(text, at)
        }
        None => text.put(b", which refers to nothing"),
    }
}

pub fn put_keyed(
    alloc: Global,
    text: &mut Text,
    front: &Option<Item>,
    waiting: Option<&Waiting>,
    machine: &Machine,
) -> Result<(), AllocError>
    ensures { OnOk result (text.new
        ≡ text.old ++ spec.keyed_note front.now (option_copied waiting.entry) machine.now) }
{
    match (front, waiting) {
        (None, Some(Waiting::Input(Input::Key(key)))) => put_key_note(alloc, text, *key, machine),
        _ => Ok(()),
    }
}
