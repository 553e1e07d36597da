//! What makes a bound dear: the dearest way to it, effect by effect.
ghost use Rattle.std.specs.Prelude.{◌≡◌, ◌++◌, OnOk, codes};
ghost use Rattle.std.specs.Fmt.{decimal};
ghost use Rattle.std.specs.List.{flat_map};
ghost use Rattle.std.specs.Option.{option_copied};
ghost use Rattle.mh_group.specs.Words.{action_word};
ghost use Rattle.mh_why.specs.WayWords.{steps_words, config_words, other_words, place_words, stage_words, stage_text, stages_text, way_text, way_of, bound_text};
ghost use Rattle.mh_why.specs.Wrapping.{paragraph};

use crate::explanation::line::{SHOWS_NONE, SHOWS_SCENE};
use crate::explanation::place::put_action;
use crate::files::shown::Source;
use crate::wrap::{put_paragraph, put_sentence};
use mh_layers::{InputKind, Stage, Way};
use mh_model::Config;
use mh_told::text::Text;
use std::alloc::{AllocError, Global};

// What stands before and between the numbers and the names.
pub const FILES_COME_TO: &[u8] = b"  By the files in the folder it comes to ";

pub const COSTS_MOST: &[u8] = b"  It costs most while application ";

pub const STARTS: &[u8] = b"  It enters application ";

pub const PUTS_FIRST: &[u8] = b"  The dearest effect that it puts to work costs ";

pub const PUTS_NEXT: &[u8] = b"  The dearest effect that this one puts to work costs ";

pub const DEAREST_ACTION: &[u8] = b". Its dearest action is ";

pub const PUTS_NONE: &[u8] = b"  It puts no effect to work.";

/// Puts what is told of the bound of the kind with this word, which was printed so, if its way is known.
#[tactic(auto, unfolding(crate::specs::WayWords::bound_text))]
pub(crate) fn put_bound(
    alloc: Global,
    text: &mut Text,
    sources: &[Source<'_>],
    ways: &[Way],
    word: &[u8],
    printed: &[u8],
) -> Result<(), AllocError>
    ensures { OnOk result (text.new ≡ text.old ++ bound_text sources.now ways.now word.now printed.now) }
{
    match way_of(ways, word) {
        Some(way) => put_way(alloc, text, sources, printed, way),
        None => Ok(()),
    }
}

/// The way of the kind with this word, if it is known.
fn way_of<'a>(ways: &'a [Way], word: &[u8]) -> Option<&'a Way>
    ensures { option_copied result ≡ way_of ways.now word.now }
{
    ways.iter().find(|way| way.kind.word() == word)
}

#[tactic(auto, unfolding(crate::specs::WayWords::way_text))]
fn put_way(
    alloc: Global,
    text: &mut Text,
    sources: &[Source<'_>],
    printed: &[u8],
    way: &Way,
) -> Result<(), AllocError>
    ensures { OnOk result (text.new ≡ text.old ++ way_text sources.now printed.now way.now) }
{
    put_other(alloc, text, printed, way.cost)?;
    put_place(alloc, text, way.kind, &way.config)?;
    put_stages(alloc, text, sources, way.stages.as_slice())
}

/// Puts what the files come to, if another bound was printed: they make another service then.
fn put_other(alloc: Global, text: &mut Text, printed: &[u8], cost: u64) -> Result<(), AllocError>
    ensures { OnOk result (text.new ≡ text.old ++ other_words printed.now cost) }
{
    let mut number = Text::new(alloc);
    number.put_number(cost)?;
    if number.as_slice() == printed {
        return Ok(());
    }
    let mut sentence = Text::new(alloc);
    sentence.put(FILES_COME_TO)?;
    put_steps(&mut sentence, cost)?;
    sentence.put(b".")?;
    put_paragraph(alloc, text, sentence.as_slice())
}

/// Puts where it costs most; a start enters the application.
fn put_place(
    alloc: Global,
    text: &mut Text,
    kind: InputKind,
    config: &Config,
) -> Result<(), AllocError>
    ensures { OnOk result (text.new ≡ text.old ++ place_words kind config.now) }
{
    match kind {
        InputKind::Start => put_sentence(alloc, text, STARTS, config.app.as_bytes(), b"."),
        _ => put_dearest(alloc, text, config),
    }
}

fn put_dearest(alloc: Global, text: &mut Text, config: &Config) -> Result<(), AllocError>
    ensures { OnOk result (text.new ≡ text.old ++ paragraph (COSTS_MOST.now ++ config_words config.now ++ codes ".")) }
{
    let mut sentence = Text::new(alloc);
    sentence.put(COSTS_MOST)?;
    put_config(&mut sentence, config)?;
    sentence.put(b".")?;
    put_paragraph(alloc, text, sentence.as_slice())
}

/// Puts an application with the scene that it shows, if it shows one.
fn put_config(text: &mut Text, config: &Config) -> Result<(), AllocError>
    ensures { OnOk result (text.new ≡ text.old ++ config_words config.now) }
{
    text.put(config.app.as_bytes())?;
    match &config.scene {
        Some(scene) => {
            text.put(SHOWS_SCENE)?;
            text.put(scene.as_bytes())
        }
        None => text.put(SHOWS_NONE),
    }
}

/// Puts the effects on a way, if there are some.
fn put_stages(
    alloc: Global,
    text: &mut Text,
    sources: &[Source<'_>],
    stages: &[Stage],
) -> Result<(), AllocError>
    ensures { OnOk result (text.new ≡ text.old ++ stages_text sources.now stages.now) }
{
    match stages {
        [] => put_paragraph(alloc, text, PUTS_NONE),
        [first, more @ ..] => {
            put_stage(alloc, text, sources, PUTS_FIRST, first)?;
            put_more(alloc, text, sources, more)
        }
    }
}

/// Puts the effects behind the first.
fn put_more(
    alloc: Global,
    text: &mut Text,
    sources: &[Source<'_>],
    stages: &[Stage],
) -> Result<(), AllocError>
    ensures { OnOk result (text.new ≡ text.old ++ flat_map (stage_text sources.now PUTS_NEXT.now) stages.now) }
{
    for stage in stages {
        put_stage(alloc, text, sources, PUTS_NEXT, stage)?;
    }
    Ok(())
}

/// Puts an effect with its dearest action, and where that stands.
#[tactic(auto, unfolding(crate::specs::WayWords::stage_text))]
fn put_stage(
    alloc: Global,
    text: &mut Text,
    sources: &[Source<'_>],
    front: &[u8],
    stage: &Stage,
) -> Result<(), AllocError>
    ensures { OnOk result (text.new ≡ text.old ++ stage_text sources.now front.now stage.now) }
{
    put_stage_words(alloc, text, front, stage)?;
    let at = &stage.cause.at;
    let group = at.group.as_bytes();
    put_action(alloc, text, sources, group, at.number, stage.index)
}

#[tactic(auto, unfolding(crate::specs::WayWords::stage_words))]
fn put_stage_words(
    alloc: Global,
    text: &mut Text,
    front: &[u8],
    stage: &Stage,
) -> Result<(), AllocError>
    ensures { OnOk result (text.new ≡ text.old ++ stage_words front.now stage.now) }
{
    let mut sentence = Text::new(alloc);
    sentence.put(front)?;
    put_steps(&mut sentence, stage.cost)?;
    sentence.put(DEAREST_ACTION)?;
    put_dearest_action(&mut sentence, stage)?;
    sentence.put(b", with ")?;
    put_steps(&mut sentence, stage.part)?;
    sentence.put(b", while application ")?;
    put_config(&mut sentence, &stage.cause.config)?;
    sentence.put(b".")?;
    put_paragraph(alloc, text, sentence.as_slice())
}

/// Puts the dearest action of an effect, by its word, its number and its object.
fn put_dearest_action(text: &mut Text, stage: &Stage) -> Result<(), AllocError>
    ensures { OnOk result (text.new ≡ text.old ++ (action_word stage.now.action ++ codes ", action " ++ decimal stage.now.index ++ codes " of object " ++ decimal stage.now.cause.at.number ++ codes " of " ++ stage.now.cause.at.group)) }
{
    let at = &stage.cause.at;
    text.put(stage.action.word())?;
    text.put(b", action ")?;
    text.put_number(stage.index as u64)?;
    text.put(b" of object ")?;
    text.put_number(u64::from(at.number))?;
    text.put(b" of ")?;
    text.put(at.group.as_bytes())
}

/// Puts so many steps.
fn put_steps(text: &mut Text, steps: u64) -> Result<(), AllocError>
    ensures { OnOk result (text.new ≡ text.old ++ steps_words steps) }
{
    text.put_number(steps)?;
    text.put(if steps == 1 { b" step" } else { b" steps" })
}
