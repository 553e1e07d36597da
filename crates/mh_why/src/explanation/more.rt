//! What is told of the lines that tell more of a refusal.
ghost use Rattle.std.specs.Prelude.{◌≡◌, ◌++◌, OnOk};
ghost use Rattle.mh_why.specs.Sources.{shown_object, by_number};
ghost use Rattle.mh_why.specs.Spots.{object_words};
ghost use Rattle.mh_why.specs.Why as spec;
ghost use Rattle.mh_why.specs.Why.{brings, brought_words, by_words, cause_told, into, object_told, scene_words, shown_from};

use crate::explanation::advice::{cell, row_with};
use crate::explanation::circle::{next_in, put_arrow, put_at};
use crate::explanation::ground::Ground;
use crate::explanation::line::{
    CIRCLE_THROUGH, COMES_BY, HANDS_ON, LEADS_TO, SHOWS_NONE, SHOWS_SCENE, SO_IT_IS, WRITES_IT,
};
use crate::explanation::object::objects;
use crate::explanation::past::Past;
use crate::explanation::place::put_object_place;
use crate::explanation::place::spot::{Spot, put_object};
use crate::explanation::through::put_through;
use crate::explanation::unread::missing::put_missing;
use crate::explanation::words::{before_last, first_word, last_word, number_in};
use crate::files::shown::Source;
use crate::wrap::put_paragraph;
use mh_flow::Link;
use mh_layers::Arrow;
use mh_told::text::Text;
use std::alloc::{AllocError, Global};

/// Puts in which configuration it is so.
#[tactic(auto, unfolding(crate::specs::Why::config))]
pub(crate) fn put_config(alloc: Global, text: &mut Text, words: &[u8]) -> Result<(), AllocError>
    ensures { OnOk result (text.new ≡ text.old ++ spec.config words.now) }
{
    let mut sentence = Text::new(alloc);
    sentence.put(SO_IT_IS)?;
    sentence.put(before_last(words))?;
    put_scene(&mut sentence, last_word(words))?;
    sentence.put(b".")?;
    put_paragraph(alloc, text, sentence.as_slice())
}

fn put_scene(text: &mut Text, scene: &[u8]) -> Result<(), AllocError>
    ensures { OnOk result (text.new ≡ text.old ++ scene_words scene.now) }
{
    if scene == b"-".as_slice() {
        return text.put(SHOWS_NONE);
    }
    text.put(SHOWS_SCENE)?;
    text.put(scene)
}

/// Puts the object that the last refusal names, where it stands, and how the action comes to it.
#[tactic(auto, unfolding(crate::specs::Why::object))]
pub(crate) fn put_named(
    alloc: Global,
    text: &mut Text,
    ground: &Ground<'_>,
    refusal: &[u8],
    words: &[u8],
) -> Result<(), AllocError>
    ensures { OnOk result (text.new ≡ text.old ++ spec.object ground.now refusal.now words.now) }
{
    let group = before_last(words);
    let object = last_word(words);
    let mut sentence = Text::new(alloc);
    put_object_told(&mut sentence, first_word(refusal), group, object)?;
    put_paragraph(alloc, text, sentence.as_slice())?;
    put_object_shown(alloc, text, ground.sources, group, object)?;
    put_through(alloc, text, ground.sources, ground.chain, refusal, words)?;
    put_missing(alloc, text, ground.sources, group)
}

/// Puts what is told of the object, by the number of the refusal.
fn put_object_told(
    text: &mut Text,
    number: &[u8],
    group: &[u8],
    object: &[u8],
) -> Result<(), AllocError>
    ensures { OnOk result (text.new ≡ text.old ++ object_told number.now (object_words group.now object.now)) }
{
    match row_with(objects(), number) {
        Some(row) => {
            text.put(cell(row, 1))?;
            put_object(text, group, object)?;
            text.put(cell(row, 2))
        }
        None => {
            text.put(LEADS_TO)?;
            put_object(text, group, object)?;
            text.put(b".")
        }
    }
}

/// Puts where the object stands, if the word is a number and it is found.
fn put_object_shown(
    alloc: Global,
    text: &mut Text,
    sources: &[Source<'_>],
    group: &[u8],
    object: &[u8],
) -> Result<(), AllocError>
    ensures { OnOk result (text.new ≡ text.old ++ by_number (shown_object sources.now group.now) object.now) }
{
    match number_in(object) {
        Some(number) => put_object_place(alloc, text, sources, group, number),
        None => Ok(()),
    }
}

/// Puts by what a reference comes to where it is wrong.
#[tactic(auto, unfolding(crate::specs::Why::by))]
pub(crate) fn put_by(
    alloc: Global,
    text: &mut Text,
    sources: &[Source<'_>],
    past: &Past<'_, '_>,
    spot: &Spot<'_>,
) -> Result<(), AllocError>
    ensures { OnOk result (text.new ≡ text.old ++ spec.by sources.now past.now spot.now) }
{
    let mut sentence = Text::new(alloc);
    sentence.put(COMES_BY)?;
    put_by_words(&mut sentence, past, spot)?;
    sentence.put(b".")?;
    put_paragraph(alloc, text, sentence.as_slice())?;
    put_from(alloc, text, sources, spot)
}

/// Puts where the action stands; of an object that has a reference from the start its members, or else the
/// object itself.
fn put_from(
    alloc: Global,
    text: &mut Text,
    sources: &[Source<'_>],
    spot: &Spot<'_>,
) -> Result<(), AllocError>
    ensures { OnOk result (text.new ≡ text.old ++ shown_from sources.now spot.now) }
{
    if spot.index() != b"0".as_slice() {
        return spot.put_shown(alloc, text, sources);
    }
    let mut shown = Text::new(alloc);
    spot.put_shown(alloc, &mut shown, sources)?;
    match shown.as_slice() {
        [] => put_object_shown(alloc, text, sources, spot.group(), spot.object()),
        place => text.put(place),
    }
}

/// Puts the action that writes a reference or hands it on, or the object that has it from the start.
fn put_by_words(text: &mut Text, past: &Past<'_, '_>, spot: &Spot<'_>) -> Result<(), AllocError>
    ensures { OnOk result (text.new ≡ text.old ++ by_words past.now spot.now) }
{
    if spot.index() == b"0".as_slice() {
        spot.put_object(text)?;
        return text.put(b", which has it from the start");
    }
    put_brought(text, past, spot)
}

#[tactic(auto, unfolding(crate::specs::Why::brought_words))]
fn put_brought(text: &mut Text, past: &Past<'_, '_>, spot: &Spot<'_>) -> Result<(), AllocError>
    ensures { OnOk result (text.new ≡ text.old ++ brought_words past.now spot.now) }
{
    spot.put_action(text)?;
    text.put(brings(past.before))?;
    put_into(text, past.chain)
}

/// What the action of a link does that stands behind this line.
fn brings(before: &[u8]) -> &'static [u8]
    ensures { result.now ≡ brings before.now }
{
    if first_word(before) == b"by".as_slice() {
        HANDS_ON
    } else {
        WRITES_IT
    }
}

/// Puts the variable or the list to which the first of these links brings the reference.
fn put_into(text: &mut Text, chain: &[Link]) -> Result<(), AllocError>
    ensures { OnOk result (text.new ≡ text.old ++ into chain.now) }
{
    match chain {
        [] => Ok(()),
        [link, ..] => {
            text.put(b" to ")?;
            put_at(text, &link.written)
        }
    }
}

/// Puts the next effect of a circle: its action that puts the one behind it to work, if it is known.
pub(crate) fn put_cause(
    alloc: Global,
    text: &mut Text,
    ground: &Ground<'_>,
    cycle: &[Arrow],
    spot: &Spot<'_>,
) -> Result<(), AllocError>
    ensures { OnOk result (text.new ≡ text.old ++ cause_told ground.now cycle.now spot.now) }
{
    match cycle {
        [] => put_circle(alloc, text, ground.sources, spot),
        [arrow, more @ ..] => {
            let next = next_in(arrow, more, ground.cycle);
            put_arrow(alloc, text, ground.sources, arrow, next)
        }
    }
}

/// Puts an effect through which a circle goes.
#[tactic(auto, unfolding(crate::specs::Why::cause))]
fn put_circle(
    alloc: Global,
    text: &mut Text,
    sources: &[Source<'_>],
    spot: &Spot<'_>,
) -> Result<(), AllocError>
    ensures { OnOk result (text.new ≡ text.old ++ spec.cause sources.now spot.now) }
{
    let mut sentence = Text::new(alloc);
    sentence.put(CIRCLE_THROUGH)?;
    spot.put_action(&mut sentence)?;
    sentence.put(b".")?;
    put_paragraph(alloc, text, sentence.as_slice())?;
    spot.put_shown(alloc, text, sources)
}
