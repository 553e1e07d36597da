//! What is told of a bound: how many steps there can be, and by the dearest way, where that is known, what makes it so.
ghost use Rattle.std.specs.Prelude.{◌≡◌, ◌++◌, OnOk, map};
ghost use Rattle.mh_why.specs.Advice.{bounds, cells};
ghost use Rattle.mh_why.specs.WayWords.{bound_row, bound_said, bound_told, printed_steps};

use crate::explanation::advice::{cell, row_with};
use crate::explanation::way::put_bound;
use crate::files::shown::Source;
use crate::wrap::put_sentence;
use mh_layers::Way;
use mh_told::text::Text;
use std::alloc::{AllocError, Global};

/// What stands before and behind the steps to which an input of a kind leads, by the word of the kind.
pub static BOUNDS: [[&[u8]; 3]; 6] = [
    [b"start", b"  To start the service takes ", b" at most."],
    [b"key", b"  A key that is pressed leads to ", b" at most."],
    [b"tick", b"  A tick of the clock leads to ", b" at most."],
    [
        b"stream",
        b"  An event of the stream leads to ",
        b" at most.",
    ],
    [
        b"engine",
        b"  An event of the engine leads to ",
        b" at most.",
    ],
    [b"arrive", b"  A file that arrives leads to ", b" at most."],
];

#[tactic(auto, unfolding(crate::specs::Advice::bounds))]
fn bounds() -> &'static [[&'static [u8]; 3]]
    ensures { map cells result.now ≡ bounds }
{
    &BOUNDS
}

/// Puts what is told of the bound of the kind with this word, which was printed so.
pub(crate) fn put_bound_told(
    alloc: Global,
    text: &mut Text,
    sources: &[Source<'_>],
    ways: &[Way],
    word: &[u8],
    printed: &[u8],
) -> Result<(), AllocError>
    ensures { OnOk result (text.new ≡ text.old ++ bound_told sources.now ways.now word.now printed.now) }
{
    put_said(alloc, text, word, printed)?;
    put_bound(alloc, text, sources, ways, word, printed)
}

#[tactic(auto, unfolding(crate::specs::WayWords::bound_said))]
fn put_said(alloc: Global, text: &mut Text, word: &[u8], printed: &[u8]) -> Result<(), AllocError>
    ensures { OnOk result (text.new ≡ text.old ++ bound_said word.now printed.now) }
{
    match row_with(bounds(), word) {
        Some(row) => put_row(alloc, text, row, printed),
        None => Ok(()),
    }
}

fn put_row(
    alloc: Global,
    text: &mut Text,
    row: &[&[u8]; 3],
    printed: &[u8],
) -> Result<(), AllocError>
    ensures { OnOk result (text.new ≡ text.old ++ bound_row printed.now (cells row.now)) }
{
    let mut steps = Text::new(alloc);
    put_steps(&mut steps, printed)?;
    put_sentence(alloc, text, cell(row, 1), steps.as_slice(), cell(row, 2))
}

/// Puts so many steps, as the number was printed.
#[tactic(auto, unfolding(crate::specs::WayWords::printed_steps))]
fn put_steps(text: &mut Text, printed: &[u8]) -> Result<(), AllocError>
    ensures { OnOk result (text.new ≡ text.old ++ printed_steps printed.now) }
{
    text.put(printed)?;
    if printed == b"1".as_slice() {
        return text.put(b" step");
    }
    text.put(b" steps")
}
