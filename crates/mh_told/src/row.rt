//! The line of a row of the picture, as reports print it: the runs of its cells.
ghost use Rattle.std.specs.Prelude.{◌≡◌, ◌+◌, ◌*◌, ◌<◌, ◌≤◌, ◌++◌, nat_eq, OnOk, length, take, codes};
ghost use Rattle.std.specs.List.{flat_map, list_all};
ghost use Rattle.mh_told.specs.Frame.{is_blank, is_space, behind, last, shown_length, run_text, place, runs, row_cells, row_line};
ghost use Rattle.mh_told.specs.Masks.{IsShown, Tells, is_written};
ghost use Rattle.mh_told.specs.Printing.{quoted, two_digits};
ghost use Rattle.mh_told.specs.Stretch.{stretch};

use crate::line::{ROOM, put_byte, put_colour, put_column, put_mark, put_plain};
use crate::masks::{behind_bits, below, lasts_of, lowest, without, written_in};
use crate::text::Text;
use mh_model::Picture;
use mh_model::picture::COLUMNS;
use std::alloc::AllocError;
use std::marker::Model;

/// A stretch of cells of one row with the same colours, as it lies in the planes of a picture.
#[derive(Drop)]
struct Run<'a> {
    first: usize,
    fore: u32,
    back: u32,
    scalars: &'a [u32],
}

impl<'a> Model for Run<'a> {
    ghost use Rattle.mh_told.specs.Frame.{Run};

    ghost Value = { Run };

    ghost view = { λ r. record { first = r.first; fore = r.fore; back = r.back; scalars = r.scalars.now } };
}

impl<'a> Run<'a> {
    /// Its last column.
    #[inline(always)]
    fn last(&self) -> usize
        requires some { 0 < length self.now.scalars }
        requires within { behind self.now ≤ 60 }
        ensures { result ≡ last self.now }
    {
        self.first + self.scalars.len() - 1
    }

    /// Whether it is black spaces on black, which are not printed; so many of its characters are.
    #[inline(always)]
    fn is_blank(&self, shown: usize) -> bool
        requires { nat_eq shown 0 ≡ list_all is_space self.now.scalars }
        ensures { result ≡ is_blank self.now }
    {
        self.fore == 0 && self.back == 0 && is_none(shown)
    }

    /// Puts the run behind the text; so many of its characters are printed.
    fn put(&self, text: &mut Text, shown: usize) -> Result<(), AllocError>
        requires some { 0 < length self.now.scalars }
        requires within { behind self.now ≤ 60 }
        requires shown { shown ≡ shown_length self.now.scalars }
        requires blank { nat_eq shown 0 ≡ list_all is_space self.now.scalars }
        ensures { OnOk result (text.new ≡ text.old ++ run_text self.now) }
    {
        if self.is_blank(shown) {
            return Ok(());
        }
        let mut line = [b' '; ROOM];
        let at = self.put_place(&mut line);
        let at = put_mark(&mut line, at);
        let printed = &self.scalars[..shown];
        let count = put_plain(&mut line, at, printed);
        put_line(text, &mut line, at + count, &printed[count..])?;
        Ok(())
    }

    /// Puts where the run lies, and its two colours.
    #[inline(always)]
    fn put_place(&self, line: &mut [u8; 96]) -> usize
        requires some { 0 < length self.now.scalars }
        requires within { behind self.now ≤ 60 }
        ensures front { take result line.new ≡ place self.now }
        ensures room { result ≤ 20 }
    {
        let at = put_byte(line, 0, b' ');
        let at = put_column(line, at, self.first);
        let at = put_byte(line, at, b'-');
        let at = put_column(line, at, self.last());
        let at = put_byte(line, at, b' ');
        let at = put_colour(line, at, self.fore);
        let at = put_byte(line, at, b'/');
        put_colour(line, at, self.back)
    }
}

/// Whether nothing of so many characters is printed.
#[inline(always)]
fn is_none(shown: usize) -> bool
    ensures { result ≡ nat_eq shown 0 }
{
    shown == 0
}

/// Puts what stands in the line before this place, the characters that are left, and the mark behind them.
#[inline(always)]
fn put_line(text: &mut Text, line: &mut [u8; 96], at: usize, left: &[u32]) -> Result<(), AllocError>
    requires { at < 96 }
    ensures { OnOk result (text.new ≡ text.old ++ (take at line.old ++ flat_map quoted left.now ++ codes "\"")) }
{
    if left.is_empty() {
        let end = put_byte(line, at, b'"');
        return text.put(&line[..end]);
    }
    text.put(&line[..at])?;
    text.put_all_quoted(left)?;
    text.put(b"\"")
}

/// The run of a row from a column up to another.
#[inline(always)]
fn run_of<'a>(picture: &'a Picture, row: usize, first: usize, last: usize) -> Run<'a>
    requires row { row < 36 }
    requires some { first ≤ last }
    requires within { last < 60 }
    ensures whole { result ≡ stretch picture.now row first (last + 1) }
    ensures some { 0 < length result.scalars }
    ensures within { behind result ≤ 60 }
{
    let start = row * COLUMNS;
    Run {
        first,
        fore: picture.fores()[start + first],
        back: picture.backs()[start + first],
        scalars: &picture.scalars()[start + first..start + (last + 1)],
    }
}

/// How many characters of the run from a column up to another are printed: not the spaces at its end.
#[inline(always)]
fn shown_in(picture: &Picture, row: usize, first: usize, last: usize, written: u64) -> usize
    requires row { row < 36 }
    requires some { first ≤ last }
    requires within { last < 60 }
    requires told { Tells (λ k. is_written picture.now.scalars (row * 60 + k)) written }
    ensures { IsShown (stretch picture.now row first (last + 1)).scalars result }
{
    let _ = picture.cells();
    behind_bits(below(written, last + 1)).saturating_sub(first)
}

/// Puts the run from a column up to another behind the text.
fn put_run(
    text: &mut Text,
    picture: &Picture,
    row: usize,
    first: usize,
    last: usize,
    written: u64,
) -> Result<(), AllocError>
    requires row { row < 36 }
    requires some { first ≤ last }
    requires within { last < 60 }
    requires told { Tells (λ k. is_written picture.now.scalars (row * 60 + k)) written }
    ensures { OnOk result (text.new ≡ text.old ++ run_text (stretch picture.now row first (last + 1))) }
{
    let run = run_of(picture, row, first, last);
    let shown = shown_in(picture, row, first, last, written);
    run.put(text, shown)
}

/// Puts the runs of a row behind the text.
fn put_runs(text: &mut Text, picture: &Picture, row: usize) -> Result<(), AllocError>
    requires { row < 36 }
    ensures { OnOk result (text.new ≡ text.old ++ runs (row_cells picture.now row)) }
{
    let _ = picture.cells();
    let written = written_in(picture.scalars(), row * COLUMNS);
    let mut lasts = lasts_of(picture, row);
    let mut first = 0;
    while first < COLUMNS {
        let last = lowest(lasts);
        put_run(text, picture, row, first, last, written)?;
        lasts = without(lasts, last);
        first = last + 1;
    }
    Ok(())
}

/// Puts what a row begins with: its number in two digits.
#[inline(always)]
fn put_number(text: &mut Text, row: usize) -> Result<(), AllocError>
    requires { row < 36 }
    ensures { OnOk result (text.new ≡ text.old ++ (codes "row " ++ two_digits row ++ codes ":")) }
{
    let tens = b'0' + (row / 10) as u8;
    let ones = b'0' + (row % 10) as u8;
    text.put(&[b'r', b'o', b'w', b' ', tens, ones, b':'])
}

/// Puts the line of a row of the picture, counted from the top, behind the text: its number in two digits, and
/// each stretch of cells with the same colours that is not black spaces on black.
pub fn put_row(text: &mut Text, picture: &Picture, row: usize) -> Result<(), AllocError>
    requires { row < 36 }
    ensures { OnOk result (text.new ≡ text.old ++ row_line row (row_cells picture.now row)) }
{
    put_number(text, row)?;
    put_runs(text, picture, row)?;
    text.put_byte(b'\n')
}
