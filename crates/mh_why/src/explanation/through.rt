//! How the action of a refusal comes to the object that is wrong, in words.
//!
//! A variable is told only where what is wrong came through it: by the chain that brought it, or since it is one of those
//! through which the action goes.
ghost use Rattle.std.specs.Prelude.{◌≡◌, ◌++◌, OnOk, IfOk};
ghost use Rattle.std.specs.List.{list_any};
ghost use Rattle.mh_why.specs.LineWords.{before_last, behind_first};
ghost use Rattle.mh_why.specs.Spots.{spot};
ghost use Rattle.mh_why.specs.Through.{held_words, holder_text, is_held, is_variable, own_text, reached_by, reaches, several, through_at, through_by, through_numbered, through_told, variables_numbered};

use crate::explanation::place::marked::is_marked;
use crate::explanation::place::spot::Spot;
use crate::explanation::variable::{put_group, put_more, put_variable};
use crate::explanation::words::{before_last, behind_first, first_word, last_word, number_in};
use crate::files::shown::{Source, source_named};
use crate::wrap::put_paragraph;
use mh_base::{GroupName, ObjRef};
use mh_flow::Link;
use mh_text::{Through, mark_of, variables_at};
use mh_told::text::Text;
use std::alloc::{AllocError, Global};

// What is said of variables.
pub const REACHES_IT: &[u8] = b"  The action reaches it through ";

pub const REACHES_BY_ONE: &[u8] = b"  The action reaches it through one of these: ";

pub const GOES_THROUGH_IT: &[u8] = b"  The action goes through this variable.";

/// Puts how the action behind the last `refused` comes to the object with these words, if that is known.
#[tactic(auto, unfolding(crate::specs::Through::through_told))]
pub(crate) fn put_through(
    alloc: Global,
    text: &mut Text,
    sources: &[Source<'_>],
    chain: &[Link],
    refusal: &[u8],
    words: &[u8],
) -> Result<(), AllocError>
    ensures { OnOk result (text.new ≡ text.old ++ through_told sources.now chain.now refusal.now words.now) }
{
    match chain.last() {
        Some(link) => put_holder(alloc, text, refusal, link),
        None => put_at(alloc, text, sources, refusal, words),
    }
}

/// Puts the variable to which the last link of a chain brought the object.
fn put_holder(alloc: Global, text: &mut Text, refusal: &[u8], link: &Link) -> Result<(), AllocError>
    ensures { OnOk result (text.new ≡ text.old ++ holder_text refusal.now link.now) }
{
    if last_word(refusal) == b"-".as_slice() {
        return Ok(());
    }
    let mut words = Text::new(alloc);
    words.put(REACHES_IT)?;
    put_held(&mut words, &link.written)?;
    words.put(b".")?;
    put_paragraph(alloc, text, words.as_slice())
}

#[tactic(auto, unfolding(crate::specs::Through::held_words))]
fn put_held(text: &mut Text, at: &ObjRef) -> Result<(), AllocError>
    ensures { OnOk result (text.new ≡ text.old ++ held_words at.now) }
{
    text.put(b"variable ")?;
    text.put_number(u64::from(at.number))?;
    text.put(b" of ")?;
    text.put(at.group.as_bytes())
}

/// Puts the same by the variables of the action, if that is found.
fn put_at(
    alloc: Global,
    text: &mut Text,
    sources: &[Source<'_>],
    refusal: &[u8],
    words: &[u8],
) -> Result<(), AllocError>
    ensures { OnOk result (text.new ≡ text.old ++ through_at sources.now refusal.now words.now (spot (before_last (behind_first refusal.now)))) }
{
    let spot = Spot::of_words(before_last(behind_first(refusal)));
    let Some(object) = number_in(spot.object()) else {
        return Ok(());
    };
    let Some(index) = number_in(spot.index()) else {
        return Ok(());
    };
    match source_named(sources, spot.group()) {
        Some(source) => put_numbered(alloc, text, source, refusal, words, object, index as usize),
        None => Ok(()),
    }
}

fn put_numbered(
    alloc: Global,
    text: &mut Text,
    source: &Source<'_>,
    refusal: &[u8],
    words: &[u8],
    object: u32,
    index: usize,
) -> Result<(), AllocError>
    ensures { OnOk result (text.new ≡ text.old ++ through_numbered refusal.now words.now object index source.now) }
{
    let variables = variables_of(alloc, source, last_word(refusal), object, index)?;
    let number = first_word(refusal);
    put_by(
        alloc,
        text,
        number,
        words,
        source.name(),
        variables.as_slice(),
    )
}

/// The variables through which the action of this name goes, if it stands there.
fn variables_of<'a>(
    alloc: Global,
    source: &'a Source<'_>,
    word: &[u8],
    object: u32,
    index: usize,
) -> Result<Vec<Through<'a>>, AllocError>
    ensures { IfOk result (λ found. found.items ≡ variables_numbered word.now object index source.now) }
{
    match mark_of(source.marks(), object, index) {
        Some(mark) if is_marked(&mark, word) => variables_at(alloc, source.text(), mark.start),
        _ => Ok(Vec::new(alloc)),
    }
}

fn put_by(
    alloc: Global,
    text: &mut Text,
    number: &[u8],
    words: &[u8],
    from: &GroupName,
    variables: &[Through<'_>],
) -> Result<(), AllocError>
    ensures { OnOk result (text.new ≡ text.old ++ through_by number.now words.now from.now variables.now) }
{
    if is_held(number) {
        return put_reached(alloc, text, from, variables);
    }
    match number_in(last_word(words)) {
        Some(object) => put_own(alloc, text, from, variables, before_last(words), object),
        None => Ok(()),
    }
}

/// Whether a refusal with this number is told of what a variable or a list holds.
fn is_held(number: &[u8]) -> bool
    ensures { result ≡ is_held number.now }
{
    number == b"V4".as_slice() || number == b"V5".as_slice()
}

/// Puts the variable through which the action reaches what is wrong; or those of which one is meant.
fn put_reached(
    alloc: Global,
    text: &mut Text,
    from: &GroupName,
    variables: &[Through<'_>],
) -> Result<(), AllocError>
    ensures { OnOk result (text.new ≡ text.old ++ reached_by from.now variables.now) }
{
    match variables {
        [] => Ok(()),
        [first, more @ ..] => put_several(alloc, text, reaches(more), from, first, more),
    }
}

/// What stands in front of a variable, and of these behind it.
fn reaches(more: &[Through<'_>]) -> &'static [u8]
    ensures { result.now ≡ reaches more.now }
{
    match more {
        [] => REACHES_IT,
        _ => REACHES_BY_ONE,
    }
}

/// Puts a variable and others behind these words.
fn put_several(
    alloc: Global,
    text: &mut Text,
    front: &[u8],
    from: &GroupName,
    first: &Through<'_>,
    more: &[Through<'_>],
) -> Result<(), AllocError>
    ensures { OnOk result (text.new ≡ text.old ++ several front.now from.now first.now more.now) }
{
    let mut words = Text::new(alloc);
    words.put(front)?;
    put_variable(alloc, &mut words, from, first)?;
    put_more(alloc, &mut words, from, more)?;
    words.put(b".")?;
    put_paragraph(alloc, text, words.as_slice())
}

/// Puts that the action goes through the object, if that is one of its variables.
fn put_own(
    alloc: Global,
    text: &mut Text,
    from: &GroupName,
    variables: &[Through<'_>],
    group: &[u8],
    number: u32,
) -> Result<(), AllocError>
    ensures { OnOk result (text.new ≡ text.old ++ own_text from.now variables.now group.now number) }
{
    if goes_through(alloc, from, variables, group, number)? {
        return put_paragraph(alloc, text, GOES_THROUGH_IT);
    }
    Ok(())
}

/// Whether the variable with this number of the group is one of these.
fn goes_through(
    alloc: Global,
    from: &GroupName,
    variables: &[Through<'_>],
    group: &[u8],
    number: u32,
) -> Result<bool, AllocError>
    ensures { IfOk result (λ found. found ≡ list_any (is_variable from.now group.now number) variables.now) }
{
    for variable in variables {
        if is_variable(alloc, from, variable, group, number)? {
            return Ok(true);
        }
    }
    Ok(false)
}

/// Whether the text names that variable.
fn is_variable(
    alloc: Global,
    from: &GroupName,
    variable: &Through<'_>,
    group: &[u8],
    number: u32,
) -> Result<bool, AllocError>
    ensures { IfOk result (λ is. is ≡ is_variable from.now group.now number variable.now) }
{
    if variable.number != number {
        return Ok(false);
    }
    let mut path = Text::new(alloc);
    put_group(alloc, &mut path, from, variable.name)?;
    Ok(path.as_slice() == group)
}
