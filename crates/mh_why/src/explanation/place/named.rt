//! Places of the actions that can be meant where a fault names an action and an object.
ghost use Rattle.std.specs.Prelude.{◌≡◌, ◌++◌, OnOk, IfOk, length, codes};
ghost use Rattle.std.specs.Fmt.{decimal};
ghost use Rattle.std.specs.List.{flat_map};
ghost use Rattle.mh_why.specs.Sources.{count_named, is_meant, is_named, marks_named, named_words, shown_actions, shown_mark, shown_named};
ghost use Rattle.mh_why.specs.Wrapping.{paragraph};

use crate::explanation::meant::{Sought, mentions};
use crate::explanation::place::put_mark;
use crate::files::shown::Source;
use crate::wrap::put_paragraph;
use mh_text::Mark;
use mh_told::text::Text;
use std::alloc::{AllocError, Global};

// What stands in front of places, and of their number.

pub const STANDS_HERE: &[u8] = b"  Actions of that name that can be meant stand here:";

pub const STAND_IN: &[u8] = b"  Actions of that name that can be meant stand in ";

/// Puts where the actions stand that can be meant.
#[tactic(auto, unfolding(crate::specs::Sources::shown_actions))]
pub(crate) fn put_actions_named(
    alloc: Global,
    text: &mut Text,
    sources: &[Source<'_>],
    sought: &Sought<'_>,
) -> Result<(), AllocError>
    ensures { OnOk result (text.new ≡ text.old ++ shown_actions sources.now sought.now) }
{
    let count = count_named(sources, sought)?;
    put_named(alloc, text, sources, sought, count)
}

/// How many actions can be meant. Memory holds no more of them than the number can count.
fn count_named(sources: &[Source<'_>], sought: &Sought<'_>) -> Result<usize, AllocError>
    ensures { IfOk result (λ count. count ≡ count_named sought.now sources.now) }
{
    let mut count: usize = 0;
    for source in sources {
        let more = count_in(source, sought);
        count = count.checked_add(more).ok_or(AllocError)?;
    }
    Ok(count)
}

/// How many actions of the file can be meant.
fn count_in(source: &Source<'_>, sought: &Sought<'_>) -> usize
    ensures { result ≡ length (marks_named sought.now source.now) }
{
    source
        .marks()
        .iter()
        .filter(|mark| is_meant(mark, sought, source.text()))
        .count()
}

/// Whether it is an action of the name that can be meant.
fn is_meant(mark: &Mark, sought: &Sought<'_>, text: &[u8]) -> bool
    ensures { result ≡ is_meant sought.now text.now mark.now }
{
    is_named(mark, sought.action) && mentions(sought.number, text.get(mark.start..).unwrap_or(&[]))
}

fn is_named(mark: &Mark, word: &[u8]) -> bool
    ensures { result ≡ is_named word.now mark.now.action }
{
    match mark.action {
        Some(name) => name.word() == word,
        None => false,
    }
}

/// Puts where the actions stand that can be meant, of which there are so many.
fn put_named(
    alloc: Global,
    text: &mut Text,
    sources: &[Source<'_>],
    sought: &Sought<'_>,
    count: usize,
) -> Result<(), AllocError>
    ensures { OnOk result (text.new ≡ text.old ++ named_words sought.now sources.now count) }
{
    match count {
        0 => Ok(()),
        1..=3 => put_all_named(alloc, text, sources, sought),
        _ => put_count(alloc, text, count),
    }
}

/// Puts each place of an action that can be meant.
fn put_all_named(
    alloc: Global,
    text: &mut Text,
    sources: &[Source<'_>],
    sought: &Sought<'_>,
) -> Result<(), AllocError>
    ensures { OnOk result (text.new ≡ text.old ++ (paragraph STANDS_HERE.now ++ shown_named sought.now sources.now)) }
{
    put_paragraph(alloc, text, STANDS_HERE)?;
    for source in sources {
        put_named_in(alloc, text, source, sought)?;
    }
    Ok(())
}

fn put_named_in(
    alloc: Global,
    text: &mut Text,
    source: &Source<'_>,
    sought: &Sought<'_>,
) -> Result<(), AllocError>
    ensures { OnOk result (text.new ≡ text.old ++ flat_map (shown_mark source.now) (marks_named sought.now source.now)) }
{
    let marks = source.marks();
    for mark in marks {
        if is_meant(mark, sought, source.text()) {
            put_mark(alloc, text, source, mark)?;
        }
    }
    Ok(())
}

/// Puts in how many places the actions stand.
fn put_count(alloc: Global, text: &mut Text, count: usize) -> Result<(), AllocError>
    ensures { OnOk result (text.new ≡ text.old ++ paragraph (STAND_IN.now ++ decimal count ++ codes " places.")) }
{
    let mut words = Text::new(alloc);
    words.put(STAND_IN)?;
    words.put_number(count as u64)?;
    words.put(b" places.")?;
    put_paragraph(alloc, text, words.as_slice())
}
