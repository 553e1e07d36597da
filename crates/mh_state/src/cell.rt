//! What lies at a cell of the screen, from the top down, and why what is not seen is not.

mod art;
mod frame;
mod given;
mod letters;
mod looking;
mod words;

ghost use Rattle.std.specs.Prelude.{◌≡◌, ◌++◌, ◌<◌, OnOk};
ghost use Rattle.mh_state.specs.Cell as spec;
ghost use Rattle.mh_state.specs.Topmost.{TopmostIsShown};

use crate::cell::looking::look_down;
use crate::cell::words::put_shown;
use mh_machine::Machine;
use mh_model::picture::CELLS;
use mh_told::text::Text;
use mh_trace::copied_refs;
use std::alloc::{AllocError, Global};

/// Puts what is told of a cell, whose number is its row times 60 and its column.
pub fn put_cell(
    alloc: Global,
    text: &mut Text,
    machine: &Machine,
    cell: usize,
) -> Result<(), AllocError>
    ensures { OnOk result (text.new ≡ text.old ++ spec.cell_text machine.now cell) }
{
    if cell < CELLS {
        put_inside(alloc, text, machine, cell)
    } else {
        put_outside(text)
    }
}

/// The topmost that paints is what the picture shows.
pub fn topmost_is_shown()
    ensures { TopmostIsShown }
{}

#[tactic(auto, unfolding(crate::specs::Cell::outside_line))]
fn put_outside(text: &mut Text) -> Result<(), AllocError>
    ensures { OnOk result (text.new ≡ text.old ++ spec.outside_line) }
{
    text.put(outside_words())?;
    text.put(b"\n")
}

#[tactic(auto, unfolding(crate::specs::Cell::outside_words))]
fn outside_words() -> &'static [u8]
    ensures { result.now ≡ spec.outside_words }
{
    b"no such cell"
}

#[tactic(auto, unfolding(crate::specs::Cell::inside_text))]
fn put_inside(
    alloc: Global,
    text: &mut Text,
    machine: &Machine,
    cell: usize,
) -> Result<(), AllocError>
    requires inside { cell < 2160 }
    ensures { OnOk result (text.new ≡ text.old ++ spec.inside_text machine.now cell) }
{
    let mut refs = copied_refs(alloc, machine.stack())?.into_vec();
    refs.reverse();
    let shown = look_down(text, machine.objects(), refs.as_slice(), cell)?;
    put_shown(text, machine.locks(), shown)
}
