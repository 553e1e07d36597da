//! Places of actions that are refused.
//!
//! An output that was printed of other files is told so: where it names an action, another stands there now.
ghost use Rattle.std.specs.Prelude.{◌≡◌, ◌++◌, OnOk};
ghost use Rattle.mh_why.specs.Sources.{is_marked, shown_detail, shown_named_at, shown_refused, shown_rest};

use crate::explanation::place::values::{detail_in, value_size};
use crate::explanation::place::{put_in, put_mark};
use crate::files::shown::{Source, source_named};
use crate::wrap::put_paragraph;
use mh_cause::Detail;
use mh_text::{Mark, mark_of};
use mh_told::text::Text;
use std::alloc::{AllocError, Global};

/// What is said where an output does not fit the files.
pub const HAVE_CHANGED: &[u8] =
    b"  The files have changed since: something else stands there now. Check again.";

/// Puts where the action of this name stands, or members for `-`; or that something else stands there.
#[tactic(auto, unfolding(crate::specs::Sources::shown_refused))]
pub(crate) fn put_refused(
    alloc: Global,
    text: &mut Text,
    sources: &[Source<'_>],
    word: &[u8],
    detail: Detail,
    group: &[u8],
    object: u32,
    index: usize,
) -> Result<(), AllocError>
    ensures { OnOk result (text.new ≡ text.old ++ shown_refused sources.now word.now detail group.now object index) }
{
    match source_named(sources, group) {
        Some(source) => put_named_at(alloc, text, source, word, detail, object, index),
        None => Ok(()),
    }
}

fn put_named_at(
    alloc: Global,
    text: &mut Text,
    source: &Source<'_>,
    word: &[u8],
    detail: Detail,
    object: u32,
    index: usize,
) -> Result<(), AllocError>
    ensures { OnOk result (text.new ≡ text.old ++ shown_named_at word.now detail object index source.now) }
{
    match mark_of(source.marks(), object, index) {
        Some(mark) if is_marked(&mark, word) => put_detail(alloc, text, source, detail, &mark),
        _ => put_paragraph(alloc, text, HAVE_CHANGED),
    }
}

/// Puts where this part of the action stands, or else its keyword.
#[tactic(auto, unfolding(crate::specs::Sources::shown_detail))]
fn put_detail(
    alloc: Global,
    text: &mut Text,
    source: &Source<'_>,
    detail: Detail,
    mark: &Mark,
) -> Result<(), AllocError>
    ensures { OnOk result (text.new ≡ text.old ++ shown_detail detail source.now mark.now) }
{
    let behind = source.text().get(mark.start..).unwrap_or(&[]);
    put_rest(alloc, text, source, mark, detail_in(detail, behind))
}

fn put_rest(
    alloc: Global,
    text: &mut Text,
    source: &Source<'_>,
    mark: &Mark,
    rest: &[u8],
) -> Result<(), AllocError>
    ensures { OnOk result (text.new ≡ text.old ++ shown_rest source.now mark.now rest.now) }
{
    match rest {
        [] => put_mark(alloc, text, source, mark),
        _ => {
            let start = source.text().len().saturating_sub(rest.len());
            put_in(alloc, text, source, start, value_size(rest))
        }
    }
}

/// Whether an action of this name stands at the mark, or a list of members for `-`.
pub(crate) fn is_marked(mark: &Mark, word: &[u8]) -> bool
    ensures { result ≡ is_marked word.now mark.now }
{
    match mark.action {
        Some(name) => name.word() == word,
        None => word == b"-".as_slice(),
    }
}
