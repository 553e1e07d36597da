//! Files of lines that the command line names, as an author is shown their lines.
ghost use Rattle.std.specs.Prelude.{◌≡◌, ◌++◌, length, OnOk};
ghost use Rattle.bstr.specs.Text.{lines_of, without_terminator};
ghost use Rattle.mh_why.specs.Places.{shown_place};
ghost use Rattle.mh_why.specs.Sources.{shown_line_from, shown_line, shown_written};

use crate::place::{put_place, without_terminator};
use bstr::ByteSlice;
use mh_told::text::Text;
use std::alloc::{AllocError, Global};
use std::marker::Model;

/// A script that was played, the file that names late scenes, or the one that gives tags.
#[derive(Drop)]
pub struct NamedFile<'a> {
    /// What the file is called.
    pub name: &'a [u8],
    pub bytes: &'a [u8],
}

impl<'a> Model for NamedFile<'a> {
    ghost use Rattle.mh_why.specs.Sources.{NamedFile};

    ghost Value = { NamedFile };

    ghost view = { λ f. record { name = f.name.now; bytes = f.bytes.now } };
}

/// Puts the line with this number, from 1 on, if there is one.
#[tactic(auto, unfolding(crate::specs::Sources::shown_line))]
pub(crate) fn put_numbered_line(
    alloc: Global,
    text: &mut Text,
    file: &NamedFile<'_>,
    number: u32,
) -> Result<(), AllocError>
    ensures { OnOk result (text.new ≡ text.old ++ shown_line file.now number) }
{
    match number.checked_sub(1) {
        Some(before) => put_line_behind(alloc, text, file, before),
        None => Ok(()),
    }
}

/// Puts the line before which so many stand.
#[tactic(auto, using(crate::proofs::FileLineLemmas::total_lines))]
fn put_line_behind(
    alloc: Global,
    text: &mut Text,
    file: &NamedFile<'_>,
    before: u32,
) -> Result<(), AllocError>
    ensures { OnOk result (text.new ≡ text.old ++ shown_line_from file.now 0 (lines_of file.now.bytes) before) }
{
    let mut start = 0;
    let mut left = before;
    for line in file.bytes.lines_with_terminator() {
        if left == 0 {
            return put_found(alloc, text, file, start, line);
        }
        start += line.len();
        left -= 1;
    }
    Ok(())
}

/// Puts the first line in which these bytes are written, and nothing else.
#[tactic(auto, using(crate::proofs::FileLineLemmas::total_lines))]
pub(crate) fn put_written_line(
    alloc: Global,
    text: &mut Text,
    file: &NamedFile<'_>,
    written: &[u8],
) -> Result<(), AllocError>
    ensures { OnOk result (text.new ≡ text.old ++ shown_written file.now written.now) }
{
    let mut start = 0;
    for line in file.bytes.lines_with_terminator() {
        if without_terminator(line) == written {
            return put_found(alloc, text, file, start, line);
        }
        start += line.len();
    }
    Ok(())
}

/// Puts a line that begins behind so many bytes.
fn put_found(
    alloc: Global,
    text: &mut Text,
    file: &NamedFile<'_>,
    start: usize,
    line: &[u8],
) -> Result<(), AllocError>
    ensures { OnOk result (text.new ≡ text.old ++ shown_place file.now.name file.now.bytes start (length (without_terminator line.now))) }
{
    let size = without_terminator(line).len();
    put_place(alloc, text, file.name, file.bytes, start, size)
}
