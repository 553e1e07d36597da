//! What is told of a group that is named and is none.
ghost use Rattle.std.specs.Prelude.{◌≡◌, ◌++◌, OnOk};
ghost use Rattle.std.specs.List.{find};
ghost use Rattle.std.specs.Option.{option_copied};
ghost use Rattle.mh_why.specs.Missing.{goes_on, is_like as is_like_lem, like_named, like_text, missing, no_group_since, no_group_text, unless_group};

use crate::files::shown::{Source, source_named};
use crate::paint::begins_with;
use crate::wrap::put_paragraph;
use mh_told::text::Text;
use std::alloc::{AllocError, Global};

/// The octets that some editors put in front of a text.
pub const BYTE_ORDER_MARK: &[u8] = b"\xef\xbb\xbf";

// Why a file is no group.
pub const HAS_MARK: &[u8] = b"it has a byte order mark in front. Take that away.";

pub const HAS_COMMENT: &[u8] = b"`/*` begins no comment. Write `//` in front of each line of it.";

pub const HAS_NO_BRACE: &[u8] = b"it has no `{:` in front, as in `{:Scene (\"~/s\" 0) }`.";

pub const IS_THERE: &[u8] = b"  There is a file ";

pub const NO_GROUP: &[u8] = b", but it does not begin as a group: ";

pub const NO_FILE: &[u8] = b"  There is no file ";

pub const LIES_THERE: &[u8] = b", but there is ";

pub const IS_CALLED: &[u8] = b". A group is called by the whole path of its file.";

/// Puts what is told of a group of this name, if there is none.
#[tactic(auto, unfolding(crate::specs::Missing::missing))]
pub(crate) fn put_missing(
    alloc: Global,
    text: &mut Text,
    sources: &[Source<'_>],
    group: &[u8],
) -> Result<(), AllocError>
    ensures { OnOk result (text.new ≡ text.old ++ missing sources.now group.now) }
{
    match source_named(sources, group) {
        Some(source) => put_unless_group(alloc, text, source),
        None => put_like_named(alloc, text, sources, group),
    }
}

fn put_unless_group(alloc: Global, text: &mut Text, source: &Source<'_>) -> Result<(), AllocError>
    ensures { OnOk result (text.new ≡ text.old ++ unless_group source.now) }
{
    if source.is_group() {
        return Ok(());
    }
    put_no_group(alloc, text, source)
}

#[tactic(auto, unfolding(crate::specs::Missing::no_group_text))]
fn put_no_group(alloc: Global, text: &mut Text, source: &Source<'_>) -> Result<(), AllocError>
    ensures { OnOk result (text.new ≡ text.old ++ no_group_text source.now) }
{
    let mut words = Text::new(alloc);
    words.put(IS_THERE)?;
    words.put(source.name().as_bytes())?;
    words.put(NO_GROUP)?;
    words.put(no_group_since(source.text()))?;
    put_paragraph(alloc, text, words.as_slice())
}

/// Why these bytes begin no group.
fn no_group_since(bytes: &[u8]) -> &'static [u8]
    ensures { result.now ≡ no_group_since bytes.now }
{
    if begins_with(BYTE_ORDER_MARK, bytes) {
        return HAS_MARK;
    }
    if begins_with(b"/*", bytes) {
        return HAS_COMMENT;
    }
    HAS_NO_BRACE
}

fn put_like_named(
    alloc: Global,
    text: &mut Text,
    sources: &[Source<'_>],
    group: &[u8],
) -> Result<(), AllocError>
    ensures { OnOk result (text.new ≡ text.old ++ like_named sources.now group.now) }
{
    match source_like(sources, group) {
        Some(source) => put_like(alloc, text, group, source),
        None => Ok(()),
    }
}

/// The first file with a name like that of the group.
fn source_like<'a, 's>(sources: &'a [Source<'s>], group: &[u8]) -> Option<&'a Source<'s>>
    ensures { option_copied result ≡ find (is_like_lem group.now) sources.now }
{
    sources.iter().find(|source| is_like(group, *source))
}

/// Whether one of the two names goes on where the other ends, or they differ in small letters alone.
fn is_like(group: &[u8], source: &Source<'_>) -> bool
    ensures { result ≡ is_like_lem group.now source.now }
{
    let name = source.name().as_bytes();
    goes_on(group, name) || goes_on(name, group) || mh_misread::is_like(0, group, name)
}

/// Whether the word is this one, and goes on behind a dot.
fn goes_on(front: &[u8], word: &[u8]) -> bool
    ensures { result ≡ goes_on front.now word.now }
{
    begins_with(front, word) && begins_with(b".", word.get(front.len()..).unwrap_or(&[]))
}

#[tactic(auto, unfolding(crate::specs::Missing::like_text))]
fn put_like(
    alloc: Global,
    text: &mut Text,
    group: &[u8],
    source: &Source<'_>,
) -> Result<(), AllocError>
    ensures { OnOk result (text.new ≡ text.old ++ like_text group.now source.now) }
{
    let mut words = Text::new(alloc);
    words.put(NO_FILE)?;
    words.put(group)?;
    words.put(LIES_THERE)?;
    words.put(source.name().as_bytes())?;
    words.put(IS_CALLED)?;
    put_paragraph(alloc, text, words.as_slice())
}
