//! Steps, and what comes of them.
ghost use Rattle.std.specs.Prelude.{◌≡◌, None};
ghost use Rattle.mh_machine.specs.Rest.{rest_of};
ghost use Rattle.mh_model.specs.Picture.{shown};
ghost use Rattle.redplay_c.specs.Answers.{good, rest_number};
ghost use Rattle.redplay_c.specs.Calls.{IsAdvanced, IsAwaitedTold, IsFaultTold, bounds_of, counts_of};
ghost use Rattle.redplay_c.specs.Cells.{AreCells};
ghost use Rattle.redplay_c.specs.OnSession.{OnSession};
ghost use Rattle.redplay_c.specs.Rows.{AreRows};

use crate::answer::{GOOD, NO_SESSION};
use crate::crossing::{Bounds, Cell, Counts};
use crate::handle::Handle;

/// Makes steps, so many at most.
#[unsafe(no_mangle)]
pub extern "C" fn redplay_advance(handle: &mut Handle, most: u32) -> u32
    ensures { OnSession (IsAdvanced most) handle.old.session handle.new.session result }
{
    if handle.is_none() {
        return NO_SESSION;
    }
    handle.held().advance(most)
}

/// What is left to do.
#[unsafe(no_mangle)]
pub extern "C" fn redplay_rest(handle: &mut Handle) -> u32
    ensures { OnSession (λ s t n. (n ≡ rest_number (rest_of s.engine.state)) × (t ≡ s)) handle.old.session handle.new.session result }
{
    if handle.is_none() {
        return NO_SESSION;
    }
    handle.held().rest()
}

/// How many steps were taken, how many may be, and how many faults were met.
#[unsafe(no_mangle)]
pub extern "C" fn redplay_counts(handle: &mut Handle, counts: &mut Counts) -> u32
    ensures counted { OnSession (λ s t n. (n ≡ good) × (t ≡ s) × (counts.new ≡ counts_of s.engine)) handle.old.session handle.new.session result }
    ensures none { handle.old.session ≡ None → counts.new ≡ counts.old }
{
    if handle.is_none() {
        return NO_SESSION;
    }
    *counts = handle.held().counts();
    GOOD
}

/// To how many steps the start and an input of each kind lead at most.
#[unsafe(no_mangle)]
pub extern "C" fn redplay_bounds(handle: &mut Handle, bounds: &mut Bounds) -> u32
    ensures bounded { OnSession (λ s t n. (n ≡ good) × (t ≡ s) × (bounds.new ≡ bounds_of s.engine.bounds)) handle.old.session handle.new.session result }
    ensures none { handle.old.session ≡ None → bounds.new ≡ bounds.old }
{
    if handle.is_none() {
        return NO_SESSION;
    }
    *bounds = handle.held().bounds();
    GOOD
}

/// Tells a fault, by its place among those that were met.
#[unsafe(no_mangle)]
pub extern "C" fn redplay_fault(
    handle: &mut Handle,
    at: usize,
    text: &mut [u8],
    length: &mut usize,
) -> u32
    ensures told { OnSession (IsFaultTold at text.old text.new length.old length.new) handle.old.session handle.new.session result }
    ensures none { handle.old.session ≡ None → (text.new ≡ text.old) × (length.new ≡ length.old) }
{
    if handle.is_none() {
        return NO_SESSION;
    }
    handle.held().fault(at, text, length)
}

/// Tells what is waited for.
#[unsafe(no_mangle)]
pub extern "C" fn redplay_awaited(handle: &mut Handle, text: &mut [u8], length: &mut usize) -> u32
    ensures told { OnSession (IsAwaitedTold text.old text.new length.old length.new) handle.old.session handle.new.session result }
    ensures none { handle.old.session ≡ None → (text.new ≡ text.old) × (length.new ≡ length.old) }
{
    if handle.is_none() {
        return NO_SESSION;
    }
    handle.held().awaited(text, length)
}

/// Which rows changed since this was asked last.
#[unsafe(no_mangle)]
pub extern "C" fn redplay_changed(handle: &mut Handle, rows: &mut u64) -> u32
    ensures changed { OnSession (λ s t n. (n ≡ good) × AreRows s.seen (shown s.engine.state) rows.new × (t ≡ record s { seen = shown s.engine.state })) handle.old.session handle.new.session result }
    ensures none { handle.old.session ≡ None → rows.new ≡ rows.old }
{
    if handle.is_none() {
        return NO_SESSION;
    }
    *rows = handle.held().changed();
    GOOD
}

/// Copies cells, from the beginning of a row on.
#[unsafe(no_mangle)]
pub extern "C" fn redplay_cells(handle: &mut Handle, row: usize, cells: &mut [Cell]) -> u32
    ensures copied { OnSession (λ s t n. AreCells (shown s.engine.state) row cells.old cells.new n × (t ≡ s)) handle.old.session handle.new.session result }
    ensures none { handle.old.session ≡ None → cells.new ≡ cells.old }
{
    if handle.is_none() {
        return NO_SESSION;
    }
    handle.held().cells(row, cells)
}
