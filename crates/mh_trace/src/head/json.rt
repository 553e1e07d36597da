//! The beginning of what is told of a step, as members of an object.
ghost use Rattle.std.specs.Prelude.{◌≡◌, ◌++◌, ◌+◌, ◌<◌, ◌^◌, IfOk, OnOk};
ghost use Rattle.std.specs.Option.{option_copied};
ghost use Rattle.mh_model.specs.Service.{parts};
ghost use Rattle.mh_model.specs.State.{all};
ghost use Rattle.mh_trace.specs.Listening.{IsIndexOf};
ghost use Rattle.mh_trace.specs.Ears.{ears, told as told_lem};
ghost use Rattle.mh_trace.specs.Head as spec;
ghost use Rattle.mh_trace.specs.Words.{place_text};
ghost use Rattle.mh_trace.specs.declared.form.Form.TheVariants as form;

use crate::changes::json::shown_ref;
use crate::directory::Directory;
use crate::ears::listening::Listening;
use crate::ears::{put_ears, told};
use crate::form::Form;
use crate::head::{put_entry, put_keyed};
use crate::json::{behind, put_list_if, put_more, put_name, put_number, put_plain};
use crate::seen::marks::place_of;
use crate::site::Site;
use crate::why::json::{put_operands, put_tested};
use crate::words::put_place;
use mh_actions::arguments::referred;
use mh_base::ObjRef;
use mh_machine::Machine;
use mh_model::{Item, Target, Waiting};
use mh_store::Objects;
use mh_told::text::Text;
use std::alloc::{AllocError, Global};
use std::collections::VecDeque;

/// Puts the beginning of an object on the next step, which does this item, or takes what waits where there is none.
#[tactic(auto, unfolding(crate::specs::Head::head_json))]
pub fn put_head_json(
    alloc: Global,
    text: &mut Text,
    front: &Option<Item>,
    machine: &Machine,
    places: &VecDeque<Site>,
    directory: &Directory,
    listening: &Listening,
) -> Result<(), AllocError>
    requires room { machine.now.taken + 1 < 2 ^ 64 }
    requires index { IsIndexOf listening.now.entries (parts (all machine.now.objects)) }
    ensures { OnOk result (text.new
        ≡ text.old ++ spec.head_json directory.now front.now (spec.first machine.now) machine.now places.now.items) }
{
    put_entry_json(alloc, text, front, machine)?;
    put_standing(alloc, text, front, machine, places, directory)?;
    put_ears_json(alloc, text, front, machine, listening)
}

#[tactic(auto, unfolding(crate::specs::Head::entry_json))]
fn put_entry_json(
    alloc: Global,
    text: &mut Text,
    front: &Option<Item>,
    machine: &Machine,
) -> Result<(), AllocError>
    requires { machine.now.taken + 1 < 2 ^ 64 }
    ensures { OnOk result (text.new
        ≡ text.old ++ spec.entry_json front.now (spec.first machine.now) machine.now) }
{
    let entry = entry_of(alloc, front, machine.queue().first())?;
    put_step(text, machine.taken() + 1)?;
    put_more(text, b"entry", entry.as_slice())?;
    put_operands(alloc, text, front, machine.objects())
}

#[tactic(auto, unfolding(crate::specs::Head::standing_json))]
fn put_standing(
    alloc: Global,
    text: &mut Text,
    front: &Option<Item>,
    machine: &Machine,
    places: &VecDeque<Site>,
    directory: &Directory,
) -> Result<(), AllocError>
    ensures { OnOk result (text.new
        ≡ text.old ++ spec.standing_json directory.now front.now machine.now places.now.items) }
{
    put_site_of(alloc, text, front, places, directory)?;
    put_through(alloc, text, front, machine.objects())?;
    put_tested(alloc, text, front, machine.objects())
}

#[tactic(auto, unfolding(crate::specs::Head::ears_json))]
fn put_ears_json(
    alloc: Global,
    text: &mut Text,
    front: &Option<Item>,
    machine: &Machine,
    listening: &Listening,
) -> Result<(), AllocError>
    requires { IsIndexOf listening.now.entries (parts (all machine.now.objects)) }
    ensures { OnOk result (text.new
        ≡ text.old ++ spec.ears_json front.now (spec.first machine.now) machine.now) }
{
    put_key_of(alloc, text, front, machine)?;
    let heard = heard(alloc, front, machine, listening)?;
    put_list_if(text, b"heard", heard.as_slice())
}

fn put_key_of(
    alloc: Global,
    text: &mut Text,
    front: &Option<Item>,
    machine: &Machine,
) -> Result<(), AllocError>
    ensures { let s = machine.now in
        OnOk result (text.new ≡ text.old ++ spec.keyed_json (spec.keyed_note front.now (spec.first s) s)) }
{
    let key = keyed(alloc, front, machine.queue().first(), machine)?;
    put_key(text, key.as_slice())
}

#[tactic(auto, unfolding(crate::specs::Head::number_json))]
fn put_step(text: &mut Text, number: u64) -> Result<(), AllocError>
    ensures { OnOk result (text.new ≡ text.old ++ spec.number_json number) }
{
    text.put(b"{")?;
    put_name(text, b"step")?;
    text.put_number(number)
}

fn entry_of(
    alloc: Global,
    front: &Option<Item>,
    waiting: Option<&Waiting>,
) -> Result<Text, AllocError>
    ensures { IfOk result (λ entry. entry ≡ spec.entry_text front.now (option_copied waiting.entry)) }
{
    let mut entry = Text::new(alloc);
    put_entry(alloc, &mut entry, front, waiting)?;
    Ok(entry)
}

fn keyed(
    alloc: Global,
    front: &Option<Item>,
    waiting: Option<&Waiting>,
    machine: &Machine,
) -> Result<Text, AllocError>
    ensures { IfOk result (λ note. note ≡ spec.keyed_note front.now (option_copied waiting.entry) machine.now) }
{
    let mut note = Text::new(alloc);
    put_keyed(alloc, &mut note, front, waiting, machine)?;
    Ok(note)
}

fn heard(
    alloc: Global,
    front: &Option<Item>,
    machine: &Machine,
    listening: &Listening,
) -> Result<Text, AllocError>
    requires { IsIndexOf listening.now.entries (parts (all machine.now.objects)) }
    ensures { IfOk result (λ list. list
        ≡ ears form.Json (told_lem front.now (spec.first machine.now) machine.now) (all machine.now.objects)) }
{
    let mut list = Text::new(alloc);
    let told = told(front, machine.queue().first(), machine)?;
    put_ears(
        alloc,
        Form::Json,
        &mut list,
        &told,
        machine.objects(),
        listening,
    )?;
    Ok(list)
}

#[tactic(auto, unfolding(crate::specs::Head::keyed_json))]
fn put_key(text: &mut Text, note: &[u8]) -> Result<(), AllocError>
    ensures { OnOk result (text.new ≡ text.old ++ spec.keyed_json note.now) }
{
    if note.is_empty() {
        Ok(())
    } else {
        put_more(text, b"key", behind(note, 2))
    }
}

fn put_site_of(
    alloc: Global,
    text: &mut Text,
    front: &Option<Item>,
    places: &VecDeque<Site>,
    directory: &Directory,
) -> Result<(), AllocError>
    ensures { OnOk result (text.new
        ≡ text.old ++ spec.place_json directory.now (spec.place_of front.now places.now.items)) }
{
    let place = place_of(front, places)?;
    put_place_at(alloc, text, &place, directory)
}

fn put_place_at(
    alloc: Global,
    text: &mut Text,
    place: &Option<Site>,
    directory: &Directory,
) -> Result<(), AllocError>
    ensures { OnOk result (text.new ≡ text.old ++ spec.place_json directory.now place.now) }
{
    match place {
        Some(site) => put_site(alloc, text, site, directory),
        None => Ok(()),
    }
}

#[tactic(auto, unfolding(crate::specs::Head::site_json))]
fn put_site(
    alloc: Global,
    text: &mut Text,
    site: &Site,
    directory: &Directory,
) -> Result<(), AllocError>
    ensures { OnOk result (text.new ≡ text.old ++ spec.site_json directory.now site.now) }
{
    let shown = shown_place(alloc, site)?;
    put_number(text, b"action", site.number as u64)?;
    put_more(text, b"of", shown.as_slice())?;
    directory.put_written_json(text, site)
}

fn shown_place(alloc: Global, site: &Site) -> Result<Text, AllocError>
    ensures { IfOk result (λ shown. shown ≡ place_text site.now.object site.now.kind) }
{
    let mut shown = Text::new(alloc);
    put_place(&mut shown, &site.object, site.kind)?;
    Ok(shown)
}

fn put_through(
    alloc: Global,
    text: &mut Text,
    front: &Option<Item>,
    objects: &Objects,
) -> Result<(), AllocError>
    ensures { OnOk result (text.new ≡ text.old ++ spec.through_json front.now (all objects.now)) }
{
    match front {
        Some(Item::Act(act)) => put_target(alloc, text, &act.target, objects),
        _ => Ok(()),
    }
}

fn put_target(
    alloc: Global,
    text: &mut Text,
    target: &Target,
    objects: &Objects,
) -> Result<(), AllocError>
    ensures { OnOk result (text.new ≡ text.old ++ spec.target_json target.now (all objects.now)) }
{
    match target {
        Target::Direct(_) => Ok(()),
        Target::Through(_) => put_found(alloc, text, referred(objects, target)),
    }
}

fn put_found(alloc: Global, text: &mut Text, found: Option<&ObjRef>) -> Result<(), AllocError>
    ensures { OnOk result (text.new ≡ text.old ++ spec.found_json (option_copied found.entry)) }
{
    match found {
        Some(at) => {
            let shown = shown_ref(alloc, at)?;
            put_more(text, b"which", shown.as_slice())
        }
        None => put_plain(text, b"which", b"null"),
    }
}
