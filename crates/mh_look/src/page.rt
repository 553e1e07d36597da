//! A report as a page for a browser, with nothing from outside: a step for each frame, with the
//! lines that were told before it, and a last one for the lines that are left.

pub(crate) mod escape;
pub(crate) mod outline;
pub(crate) mod posted;

ghost use Rattle.std.specs.Prelude.{◌≡◌, ◌<◌, ◌-◌, ◌^◌, ◌++◌, ◌==◌, OnOk, IfOk, [], codes, if◌then◌else◌, false};
ghost use Rattle.mh_model.specs.Planes.{blank};
ghost use Rattle.mh_look.specs.Page.{begins_run, run_tag, cell_tag, cell_text, page_cell, page_row, page_rows, page_frame, step_part, shown_behind, steps_from, page_of, escaped};
ghost use Rattle.mh_look.specs.Shown.{line_of};

use crate::comparison::difference::differs_at;
use crate::page::escape::{put_escaped, put_escaped_character};
use crate::page::outline::{
    BACKGROUND, FRAME_BEGIN, FRAME_END, FRAME_TITLE_END, ROW_END, STYLE, foot, head,
};
use crate::page::posted::{left_behind, put_posted, tells_more};
use crate::report::{Part, Report};
use crate::show::{frames_up_to, put_line};
use mh_model::picture::{COLUMNS, ROWS};
use mh_model::{Cell, Picture};
use mh_terminal::{harmless, turns};
use mh_told::text::Text;
use mh_told::told::put_total;
use std::alloc::{AllocError, Global};

/// The page of a report, with the lines of the script that was played; without one they are none.
#[tactic(auto, unfolding(crate::specs::Page::page_of))]
pub fn page_of(alloc: Global, report: &Report, script: &[u8]) -> Result<Text, AllocError>
    ensures { IfOk result (λ page. page ≡ page_of report.now script.now) }
{
    let mut text = Text::new(alloc);
    text.put(head())?;
    put_steps(alloc, &mut text, report, script)?;
    text.put(foot())?;
    Ok(text)
}

/// Puts a step for each frame, and the last one.
fn put_steps(
    alloc: Global,
    text: &mut Text,
    report: &Report,
    script: &[u8],
) -> Result<(), AllocError>
    ensures { OnOk result (text.new ≡ text.old ++ steps_from 0 blank false script.now report.now.parts report.now.total) }
{
    let mut passed = 0;
    let mut shown = Picture::black(alloc)?;
    let mut told = false;
    let mut left = script;
    for part in &report.parts {
        put_posted(text, told, left)?;
        put_part(alloc, text, passed, &shown, part)?;
        passed = frames_up_to(passed, part);
        follow(&mut shown, part);
        left = left_behind(told, left);
        told = tells_more(part);
    }
    put_posted(text, told, left)?;
    let mut line = Text::new(alloc);
    put_total(&mut line, report.total)?;
    put_escaped(text, line.as_slice())
}

/// Makes the picture the one that is shown behind this part.
fn follow(shown: &mut Picture, part: &Part)
    ensures { shown.new ≡ shown_behind shown.old part.now }
{
    if let Part::Frame(picture) = part {
        shown.copy_from(picture);
    }
}

/// Puts a part, before which there are so many frames and this picture is shown.
#[tactic(auto, unfolding(crate::specs::Page::step_part))]
fn put_part(
    alloc: Global,
    text: &mut Text,
    passed: u64,
    shown: &Picture,
    part: &Part,
) -> Result<(), AllocError>
    requires { passed < 2 ^ 64 - 1 }
    ensures { OnOk result (text.new ≡ text.old ++ step_part passed shown.now part.now) }
{
    match part {
        Part::Frame(picture) => put_frame(text, passed + 1, shown, picture),
        _ => put_told(alloc, text, part),
    }
}

fn put_told(alloc: Global, text: &mut Text, part: &Part) -> Result<(), AllocError>
    ensures { OnOk result (text.new ≡ text.old ++ escaped (line_of part.now)) }
{
    let mut line = Text::new(alloc);
    put_line(&mut line, part)?;
    put_escaped(text, line.as_slice())
}

/// Puts a frame, which ends the lines before it, and begins those behind it.
#[tactic(auto, unfolding(crate::specs::Page::page_frame))]
fn put_frame(
    text: &mut Text,
    number: u64,
    before: &Picture,
    after: &Picture,
) -> Result<(), AllocError>
    ensures { OnOk result (text.new ≡ text.old ++ page_frame number before.now after.now) }
{
    text.put(FRAME_BEGIN)?;
    text.put_number(number)?;
    text.put(FRAME_TITLE_END)?;
    put_rows(text, before, after)?;
    text.put(FRAME_END)
}

#[tactic(auto, unfolding(crate::specs::Page::page_rows))]
fn put_rows(text: &mut Text, before: &Picture, after: &Picture) -> Result<(), AllocError>
    ensures { OnOk result (text.new ≡ text.old ++ page_rows before.now after.now) }
{
    for row in 0..ROWS {
        put_row(text, before, after, row)?;
    }
    Ok(())
}

fn put_row(text: &mut Text, before: &Picture, after: &Picture, row: usize) -> Result<(), AllocError>
    requires { row < 36 }
    ensures { OnOk result (text.new ≡ text.old ++ page_row before.now after.now row) }
{
    text.put(b"<div>")?;
    for column in 0..COLUMNS {
        put_cell(text, before, after, row, column)?;
    }
    text.put(ROW_END)
}

#[tactic(auto, unfolding(crate::specs::Page::page_cell))]
fn put_cell(
    text: &mut Text,
    before: &Picture,
    after: &Picture,
    row: usize,
    column: usize,
) -> Result<(), AllocError>
    requires row { row < 36 }
    requires column { column < 60 }
    ensures { OnOk result (text.new ≡ text.old ++ page_cell before.now after.now row column) }
{
    put_cell_tag(text, before, after, row, column)?;
    put_cell_text(text, after.cell(row * COLUMNS + column).scalar)
}

/// Puts the character of a cell as text of the page.
#[tactic(auto, unfolding(crate::specs::Page::cell_text))]
fn put_cell_text(text: &mut Text, scalar: u32) -> Result<(), AllocError>
    ensures { OnOk result (text.new ≡ text.old ++ cell_text scalar) }
{
    put_escaped_character(text, harmless(scalar))
}

/// Puts the tag of a cell where a run of cells begins.
#[tactic(auto, unfolding(crate::specs::Page::cell_tag))]
fn put_cell_tag(
    text: &mut Text,
    before: &Picture,
    after: &Picture,
    row: usize,
    column: usize,
) -> Result<(), AllocError>
    requires row { row < 36 }
    requires column { column < 60 }
    ensures { OnOk result (text.new ≡ text.old ++ cell_tag before.now after.now row column) }
{
    if begins_run(before, after, row, column) {
        let at = row * COLUMNS + column;
        return put_run_tag(text, column, differs_at(before, after, at), after.cell(at));
    }
    Ok(())
}

/// Whether a run of cells begins here: the row does, or colours change, or changed cells begin or
/// end.
fn begins_run(before: &Picture, after: &Picture, row: usize, column: usize) -> bool
    requires row { row < 36 }
    requires column { column < 60 }
    ensures { result ≡ begins_run before.now after.now row column }
{
    if turns(after, row, column) {
        return true;
    }
    let at = row * COLUMNS + column;
    differs_at(before, after, at) != differs_at(before, after, at - 1)
}

/// Ends the run before, unless the row begins, and begins one in the colours of this cell.
#[tactic(auto, unfolding(crate::specs::Page::run_tag))]
fn put_run_tag(text: &mut Text, column: usize, changed: bool, cell: Cell) -> Result<(), AllocError>
    ensures { OnOk result (text.new ≡ text.old ++ run_tag column changed cell.fore cell.back) }
{
    text.put(run_end(column))?;
    text.put(b"<span ")?;
    text.put(class_of(changed))?;
    text.put(STYLE)?;
    text.put_colour(cell.fore)?;
    text.put(BACKGROUND)?;
    text.put_colour(cell.back)?;
    text.put(b"\">")
}

fn run_end(column: usize) -> &'static [u8]
    ensures { result.now ≡ (if column == 0 then [] else codes "</span>") }
{
    if column == 0 { b"" } else { b"</span>" }
}

fn class_of(changed: bool) -> &'static [u8]
    ensures { result.now ≡ (if changed then codes "class=c " else []) }
{
    if changed { b"class=c " } else { b"" }
}
