//! What is said of what cannot be read, of what the verifier accepts, and of what it refuses.
ghost use Rattle.std.specs.Prelude.{◌≡◌, ◌++◌, OnOk, IfOk, codes};
ghost use Rattle.std.specs.Fmt.{decimal};
ghost use Rattle.mh_verdict.specs.Lines.{complaint, refusal_lines, place_words, action_words, scene_word, config_line, object_line};
ghost use Rattle.mh_verdict.specs.Lines.{accepted_lines, bound_line, cause_line, chain_lines, cycle_lines, link_line, where_words};

use mh_base::{GroupName, ObjRef};
use mh_flow::Link;
use mh_group::ActionName;
use mh_layers::{Arrow, Bounds, Cause, InputKind};
use mh_model::Config;
use mh_told::text::Text;
use mh_told::unplayable::Unplayable;
use mh_verify::{Place, Refusal, RefusalKind};
use std::alloc::{AllocError, Global};

/// The line on what cannot be read.
#[tactic(auto, unfolding(crate::specs::Lines::complaint))]
pub fn complaint_text(alloc: Global, why: &Unplayable) -> Result<Text, AllocError>
    ensures { IfOk result (λ text. text ≡ complaint why.now) }
{
    let mut text = Text::new(alloc);
    match why {
        Unplayable::File {
            name,
            number,
            offset,
        } => {
            text.put(b"file ")?;
            text.put(name.as_slice())?;
            put_spaced(&mut text, u64::from(*number))?;
            put_spaced(&mut text, *offset as u64)?;
        }
        Unplayable::Service { number, group } => {
            text.put(b"service")?;
            put_spaced(&mut text, u64::from(*number))?;
            text.put(b" ")?;
            text.put(group.as_slice())?;
        }
        Unplayable::Tags { number, place } => {
            text.put(b"tags")?;
            put_spaced(&mut text, u64::from(*number))?;
            put_spaced(&mut text, *place as u64)?;
        }
        Unplayable::Script(number) => {
            text.put(b"script")?;
            put_spaced(&mut text, *number as u64)?;
        }
        Unplayable::NoMemory => return Ok(text),
    }
    text.put(b"\n")?;
    Ok(text)
}

/// Puts a space and a number.
fn put_spaced(text: &mut Text, number: u64) -> Result<(), AllocError>
    ensures { OnOk result (text.new ≡ text.old ++ codes " " ++ decimal number) }
{
    text.put(b" ")?;
    text.put_number(number)
}

/// The lines on a refusal of the verifier.
#[tactic(auto, unfolding(crate::specs::Lines::refusal_lines))]
pub fn refusal_text(alloc: Global, refusal: &Refusal) -> Result<Text, AllocError>
    ensures { IfOk result (λ text. text ≡ refusal_lines refusal.now) }
{
    let mut text = Text::new(alloc);
    text.put(b"refused V")?;
    text.put_number(u64::from(refusal.kind.number().unwrap_or(0)))?;
    put_where(&mut text, refusal.kind, &refusal.place, refusal.action)?;
    text.put(b"\n")?;
    put_config(&mut text, &refusal.config)?;
    put_object(&mut text, &refusal.object)?;
    put_chain(&mut text, refusal.chain.as_slice())?;
    put_cycle(&mut text, refusal.cycle.as_slice())?;
    Ok(text)
}

/// The place and its action, or the kind of what leads to too many steps.
fn put_where(
    text: &mut Text,
    kind: RefusalKind,
    place: &Option<Place>,
    action: Option<ActionName>,
) -> Result<(), AllocError>
    ensures { OnOk result (text.new ≡ text.old ++ where_words kind place.now action) }
{
    if let RefusalKind::TooManySteps(input) = kind {
        text.put(b" ")?;
        return text.put(input.word());
    }
    put_place(text, place)?;
    put_action(text, action)
}

fn put_place(text: &mut Text, place: &Option<Place>) -> Result<(), AllocError>
    ensures { OnOk result (text.new ≡ text.old ++ place_words place.now) }
{
    if let Some(place) = place {
        text.put(b" ")?;
        text.put(place.group.as_bytes())?;
        put_spaced(text, u64::from(place.object))?;
        put_spaced(text, place.index as u64)?;
    }
    Ok(())
}

fn put_action(text: &mut Text, action: Option<ActionName>) -> Result<(), AllocError>
    ensures { OnOk result (text.new ≡ text.old ++ action_words action) }
{
    text.put(b" ")?;
    match action {
        Some(action) => text.put(action.word()),
        None => text.put(b"-"),
    }
}

fn put_config(text: &mut Text, config: &Option<Config>) -> Result<(), AllocError>
    ensures { OnOk result (text.new ≡ text.old ++ config_line config.now) }
{
    if let Some(config) = config {
        text.put(b"config ")?;
        text.put(config.app.as_bytes())?;
        text.put(b" ")?;
        put_scene(text, &config.scene)?;
        text.put(b"\n")?;
    }
    Ok(())
}

fn put_scene(text: &mut Text, scene: &Option<GroupName>) -> Result<(), AllocError>
    ensures { OnOk result (text.new ≡ text.old ++ scene_word scene.now) }
{
    match scene {
        Some(scene) => text.put(scene.as_bytes()),
        None => text.put(b"-"),
    }
}

fn put_object(text: &mut Text, object: &Option<ObjRef>) -> Result<(), AllocError>
    ensures { OnOk result (text.new ≡ text.old ++ object_line object.now) }
{
    if let Some(object) = object {
        text.put(b"object ")?;
        text.put(object.group.as_bytes())?;
        put_spaced(text, u64::from(object.number))?;
        text.put(b"\n")?;
    }
    Ok(())
}

/// A line for each link of the chain that brought the reference.
fn put_chain(text: &mut Text, chain: &[Link]) -> Result<(), AllocError>
    ensures { OnOk result (text.new ≡ text.old ++ chain_lines chain.now) }
{
    for link in chain {
        put_link(text, link)?;
    }
    Ok(())
}

fn put_link(text: &mut Text, link: &Link) -> Result<(), AllocError>
    ensures { OnOk result (text.new ≡ text.old ++ link_line link.now) }
{
    text.put(b"by ")?;
    text.put(link.key.group.as_bytes())?;
    put_spaced(text, u64::from(link.key.number))?;
    put_spaced(text, link.index as u64)?;
    text.put(b"\n")
}

/// A line for each of the effects that put each other to work.
fn put_cycle(text: &mut Text, cycle: &[Arrow]) -> Result<(), AllocError>
    ensures { OnOk result (text.new ≡ text.old ++ cycle_lines cycle.now) }
{
    for arrow in cycle {
        put_cause(text, &arrow.cause)?;
    }
    Ok(())
}

fn put_cause(text: &mut Text, cause: &Cause) -> Result<(), AllocError>
    ensures { OnOk result (text.new ≡ text.old ++ cause_line cause.now) }
{
    text.put(b"cause ")?;
    text.put(cause.at.group.as_bytes())?;
    put_spaced(text, u64::from(cause.at.number))?;
    put_spaced(text, cause.index as u64)?;
    text.put(b"\n")
}

// Of a service that is accepted

fn put_bound(text: &mut Text, kind: InputKind, bound: u64) -> Result<(), AllocError>
    ensures { OnOk result (text.new ≡ text.old ++ bound_line kind bound) }
{
    text.put(kind.word())?;
    put_spaced(text, bound)?;
    text.put(b"\n")
}

/// The lines on a service that is accepted.
#[tactic(auto, unfolding(crate::specs::Lines::accepted_lines))]
pub fn accepted_text(alloc: Global, bounds: &Bounds) -> Result<Text, AllocError>
    ensures { IfOk result (λ text. text ≡ accepted_lines bounds.now) }
{
    let mut text = Text::new(alloc);
    text.put(b"accepted\n")?;
    put_bound(&mut text, InputKind::Start, bounds.start)?;
    put_bound(&mut text, InputKind::Key, bounds.key)?;
    put_bound(&mut text, InputKind::Tick, bounds.tick)?;
    put_bound(&mut text, InputKind::Stream, bounds.stream)?;
    put_bound(&mut text, InputKind::Engine, bounds.engine)?;
    put_bound(&mut text, InputKind::Arrive, bounds.arrive)?;
    Ok(text)
}
