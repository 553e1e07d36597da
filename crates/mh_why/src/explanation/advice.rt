//! What is told of each number and kind that `redplay` prints: the cause and the mend, by the tables of
//! `tables`.

pub(crate) mod tables;

ghost use Rattle.std.specs.Prelude.{◌≡◌, ◌++◌, ◌<◌, OnOk, map};
ghost use Rattle.std.specs.Option.{option_map};
ghost use Rattle.mh_why.specs.Advice.{cells, cell, row_text, row_with, advice, refusals, files, services, tags, faults, readings};

use crate::explanation::advice::tables::{FAULTS, FILES, READINGS, REFUSALS, SERVICES, TAGS};
use crate::wrap::put_sentence;
use mh_told::text::Text;
use std::alloc::{AllocError, Global};

/// Puts what is told of this word, if something is.
pub(crate) fn put_advice(
    alloc: Global,
    text: &mut Text,
    rows: &[[&[u8]; 3]],
    word: &[u8],
) -> Result<(), AllocError>
    ensures { OnOk result (text.new ≡ text.old ++ advice (map cells rows.now) word.now) }
{
    match row_with(rows, word) {
        Some(row) => put_row(alloc, text, row),
        None => Ok(()),
    }
}

/// The first row for this word, if there is one.
pub fn row_with<'a>(rows: &'a [[&'a [u8]; 3]], word: &[u8]) -> Option<&'a [&'a [u8]; 3]>
    ensures { option_map (λ row. cells row.now) result ≡ row_with (map cells rows.now) word.now }
{
    let mut left = rows;
    while let [row, behind @ ..] = left {
        if cell(row, 0) == word {
            return Some(row);
        }
        left = behind;
    }
    None
}

/// A cell of a row.
pub(crate) fn cell<'a>(row: &[&'a [u8]; 3], at: usize) -> &'a [u8]
    requires { at < 3 }
    ensures { result.now ≡ cell (cells row.now) at }
{
    row[at]
}

/// The cause that a row tells.
pub fn row_cause<'a>(row: &[&'a [u8]; 3]) -> &'a [u8]
    ensures { result.now ≡ cell (cells row.now) 1 }
{
    cell(row, 1)
}

/// The mend that a row tells.
pub fn row_mend<'a>(row: &[&'a [u8]; 3]) -> &'a [u8]
    ensures { result.now ≡ cell (cells row.now) 2 }
{
    cell(row, 2)
}

#[tactic(auto, unfolding(crate::specs::Advice::row_text))]
fn put_row(alloc: Global, text: &mut Text, row: &[&[u8]; 3]) -> Result<(), AllocError>
    ensures { OnOk result (text.new ≡ text.old ++ row_text (cells row.now)) }
{
    put_sentence(alloc, text, b"  Cause: ", row_cause(row), b".")?;
    put_sentence(alloc, text, b"  Mend: ", row_mend(row), b".")
}

#[tactic(auto, unfolding(crate::specs::Advice::refusals))]
pub fn refusals() -> &'static [[&'static [u8]; 3]]
    ensures { map cells result.now ≡ refusals }
{
    &REFUSALS
}

#[tactic(auto, unfolding(crate::specs::Advice::files))]
pub fn files() -> &'static [[&'static [u8]; 3]]
    ensures { map cells result.now ≡ files }
{
    &FILES
}

#[tactic(auto, unfolding(crate::specs::Advice::services))]
pub fn services() -> &'static [[&'static [u8]; 3]]
    ensures { map cells result.now ≡ services }
{
    &SERVICES
}

#[tactic(auto, unfolding(crate::specs::Advice::tags))]
pub fn tags() -> &'static [[&'static [u8]; 3]]
    ensures { map cells result.now ≡ tags }
{
    &TAGS
}

#[tactic(auto, unfolding(crate::specs::Advice::faults))]
pub(crate) fn faults() -> &'static [[&'static [u8]; 3]]
    ensures { map cells result.now ≡ faults }
{
    &FAULTS
}

#[tactic(auto, unfolding(crate::specs::Advice::readings))]
pub fn readings() -> &'static [[&'static [u8]; 3]]
    ensures { map cells result.now ≡ readings }
{
    &READINGS
}
