//! The mistakes behind the first one in files that are not read, each with its place, its cause and its mend.
ghost use Rattle.std.specs.Prelude.{◌≡◌, ◌++◌, ◌-◌, ◌==◌, ◌&&◌, length, IfOk, OnOk};
ghost use Rattle.std.specs.Fmt.{decimal};
ghost use Rattle.std.specs.List.{flat_map};
ghost use Rattle.std.specs.Option.{option_map_or};
ghost use Rattle.mh_misread.specs.Resuming.{text_from as text_from_lem};
ghost use Rattle.mh_why.specs.Advice.{advice, files as files_lem};
ghost use Rattle.mh_why.specs.Further.{behind_at, behind_first_of, files_text, from_named, further, further_by, mistake_advice, mistake_text, mistakes_in, with_notice};
ghost use Rattle.mh_why.specs.Misreading.{case_text};

use crate::explanation::advice::{files, put_advice};
use crate::explanation::place::put_byte;
use crate::explanation::place::spot::Spot;
use crate::explanation::unread::misread::put_case;
use crate::explanation::words::number_in;
use crate::files::shown::Source;
use crate::wrap::put_paragraph;
use mh_misread::{Misread, Mistake, misread_of, mistakes, text_from};
use mh_told::text::Text;
use std::alloc::{AllocError, Global};

/// How many mistakes are told at most, with the first.
const MOST: usize = 20;

pub const READ_ON: &[u8] =
    b"  Reading went on at the next ingredient, and at the next file. What follows may come of what is told above, so mend that first; no more than 20 mistakes are told.";

/// Puts what is told behind the first mistake, whose line has the file, the offset and the number.
#[tactic(auto, unfolding(crate::specs::Further::further))]
pub(crate) fn put_further(
    alloc: Global,
    text: &mut Text,
    sources: &[Source<'_>],
    spot: &Spot<'_>,
) -> Result<(), AllocError>
    ensures { OnOk result (text.new ≡ text.old ++ further sources.now spot.now) }
{
    match (number_in(spot.index()), number_in(spot.object())) {
        (Some(place), Some(number)) => {
            put_further_by(
                alloc,
                text,
                from_named(sources, spot.group()),
                place as usize,
                number,
            )
        }
        _ => Ok(()),
    }
}

fn put_further_by(
    alloc: Global,
    text: &mut Text,
    sources: &[Source<'_>],
    place: usize,
    number: u32,
) -> Result<(), AllocError>
    ensures { OnOk result (text.new ≡ text.old ++ with_notice (behind_at place number sources.now)) }
{
    let mut told = Text::new(alloc);
    put_behind_at(alloc, &mut told, sources, place, number)?;
    put_with_notice(alloc, text, told.as_slice())
}

fn put_with_notice(alloc: Global, text: &mut Text, told: &[u8]) -> Result<(), AllocError>
    ensures { OnOk result (text.new ≡ text.old ++ with_notice told.now) }
{
    match told {
        [] => Ok(()),
        _ => {
            put_paragraph(alloc, text, READ_ON)?;
            text.put(told)
        }
    }
}

/// The file of this name and those behind it.
fn from_named<'a, 's>(sources: &'a [Source<'s>], name: &[u8]) -> &'a [Source<'s>]
    ensures { result.now ≡ from_named name.now sources.now }
{
    let mut left = sources;
    while let [source, behind @ ..] = left {
        if source.name().as_bytes() == name {
            return left;
        }
        left = behind;
    }
    left
}

#[tactic(auto, unfolding(crate::specs::Further::behind_at))]
fn put_behind_at(
    alloc: Global,
    text: &mut Text,
    sources: &[Source<'_>],
    place: usize,
    number: u32,
) -> Result<(), AllocError>
    ensures { OnOk result (text.new ≡ text.old ++ behind_at place number sources.now) }
{
    match sources {
        [] => Ok(()),
        [source, behind @ ..] => {
            let found = mistakes_in(alloc, MOST, source)?;
            put_behind_first(alloc, text, source, behind, found.as_slice(), place, number)
        }
    }
}

/// The first mistakes of a file, if it is a text, at most so many.
fn mistakes_in(alloc: Global, most: usize, source: &Source<'_>) -> Result<Vec<Mistake>, AllocError>
    ensures { IfOk result (λ found. found.items ≡ mistakes_in most source.now) }
{
    if source.is_written() {
        mistakes(alloc, most, source.text())
    } else {
        Ok(Vec::new(alloc))
    }
}

/// Puts those behind the first, if that is the one with this place and number.
fn put_behind_first(
    alloc: Global,
    text: &mut Text,
    source: &Source<'_>,
    others: &[Source<'_>],
    found: &[Mistake],
    place: usize,
    number: u32,
) -> Result<(), AllocError>
    ensures { OnOk result (text.new ≡ text.old ++ behind_first_of place number source.now others.now found.now) }
{
    match found {
        [first, behind @ ..] if is_at(first, place, number) => {
            put_mistakes(alloc, text, source, behind)?;
            put_files(alloc, text, MOST.saturating_sub(found.len()), others)
        }
        _ => Ok(()),
    }
}

fn is_at(mistake: &Mistake, place: usize, number: u32) -> bool
    ensures { result ≡ (mistake.now.place == place && mistake.now.number == number) }
{
    mistake.place == place && mistake.number == number
}

/// Puts the mistakes of these files, at most so many.
fn put_files(
    alloc: Global,
    text: &mut Text,
    most: usize,
    sources: &[Source<'_>],
) -> Result<(), AllocError>
    ensures { OnOk result (text.new ≡ text.old ++ files_text most sources.now) }
{
    let mut most = most;
    let mut left = sources;
    while let [source, behind @ ..] = left {
        let found = mistakes_in(alloc, most, source)?;
        put_mistakes(alloc, text, source, found.as_slice())?;
        most = most.saturating_sub(found.len());
        left = behind;
    }
    Ok(())
}

fn put_mistakes(
    alloc: Global,
    text: &mut Text,
    source: &Source<'_>,
    found: &[Mistake],
) -> Result<(), AllocError>
    ensures { OnOk result (text.new ≡ text.old ++ flat_map (mistake_text source.now) found.now) }
{
    for mistake in found {
        put_mistake(alloc, text, source, mistake)?;
    }
    Ok(())
}

#[tactic(auto, unfolding(crate::specs::Further::mistake_text))]
fn put_mistake(
    alloc: Global,
    text: &mut Text,
    source: &Source<'_>,
    mistake: &Mistake,
) -> Result<(), AllocError>
    ensures { OnOk result (text.new ≡ text.old ++ mistake_text source.now mistake.now) }
{
    put_byte(alloc, text, source, mistake.place)?;
    let read = text_from(alloc, source.text(), mistake.from)?;
    put_mistake_advice(alloc, text, read.as_slice(), mistake)
}

/// Puts the cause and the mend of a mistake, in the text in which it was met.
#[tactic(auto, unfolding(crate::specs::Further::mistake_advice))]
fn put_mistake_advice(
    alloc: Global,
    text: &mut Text,
    read: &[u8],
    mistake: &Mistake,
) -> Result<(), AllocError>
    ensures { OnOk result (text.new ≡ text.old ++ mistake_advice read.now mistake.now) }
{
    let misread = misread_of(alloc, read, mistake.offset, mistake.number)?;
    put_case_or_number(alloc, text, read, mistake, misread)
}

fn put_case_or_number(
    alloc: Global,
    text: &mut Text,
    read: &[u8],
    mistake: &Mistake,
    misread: Option<Misread>,
) -> Result<(), AllocError>
    ensures { let other = advice files_lem (decimal mistake.now.number) in
        OnOk result (text.new ≡ text.old ++ option_map_or (case_text read.now mistake.now.offset) misread other) }
{
    match misread {
        Some(misread) => put_case(alloc, text, read, mistake.offset, misread),
        None => put_number_advice(alloc, text, mistake.number),
    }
}

/// Puts what the number of a refusal stands for.
fn put_number_advice(alloc: Global, text: &mut Text, number: u32) -> Result<(), AllocError>
    ensures { OnOk result (text.new ≡ text.old ++ advice files_lem (decimal number)) }
{
    let mut word = Text::new(alloc);
    word.put_number(u64::from(number))?;
    put_advice(alloc, text, files(), word.as_slice())
}
