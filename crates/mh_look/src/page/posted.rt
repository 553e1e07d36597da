//! The lines of a script in a page: they stand before what the report tells of them.
ghost use Rattle.std.specs.Prelude.{◌≡◌, ◌++◌, OnOk};
ghost use Rattle.std.specs.List.{flat_map};
ghost use Rattle.bstr.specs.Text.{lines_of};
ghost use Rattle.mh_look.specs.Page.{left_behind, posted, posted_line, posted_lines, tells_more};

use crate::page::escape::put_escaped;
use crate::report::Part;
use bstr::ByteSlice;
use mh_told::text::Text;
use mh_why::{behind_stop, up_to_stop, without_terminator};
use std::alloc::AllocError;

/// Puts the lines up to the next of which the report tells, unless something was told of them.
pub(crate) fn put_posted(text: &mut Text, told: bool, left: &[u8]) -> Result<(), AllocError>
    ensures { OnOk result (text.new ≡ text.old ++ posted told left.now) }
{
    if told {
        return Ok(());
    }
    put_posted_lines(text, left)
}

#[tactic(auto, unfolding(crate::specs::Page::posted_lines))]
fn put_posted_lines(text: &mut Text, left: &[u8]) -> Result<(), AllocError>
    ensures { OnOk result (text.new ≡ text.old ++ posted_lines left.now) }
{
    put_lines(text, up_to_stop(left))
}

fn put_lines(text: &mut Text, bytes: &[u8]) -> Result<(), AllocError>
    ensures { OnOk result (text.new ≡ text.old ++ flat_map posted_line (lines_of bytes.now)) }
{
    for line in bytes.lines_with_terminator() {
        put_line(text, line)?;
    }
    Ok(())
}

#[tactic(auto, unfolding(crate::specs::Page::posted_line))]
fn put_line(text: &mut Text, line: &[u8]) -> Result<(), AllocError>
    ensures { OnOk result (text.new ≡ text.old ++ posted_line line.now) }
{
    text.put(b"&gt; ")?;
    put_escaped(text, without_terminator(line))?;
    text.put(b"\n")
}

/// What is left of the script behind a part.
pub(crate) fn left_behind(told: bool, left: &[u8]) -> &[u8]
    ensures { result.now ≡ left_behind told left.now }
{
    if told { left } else { behind_stop(left) }
}

/// Whether more is told of the same lines behind a part.
pub(crate) fn tells_more(part: &Part) -> bool
    ensures { result ≡ tells_more part.now }
{
    matches!(part, Part::Fault(_) | Part::Refused(_))
}
