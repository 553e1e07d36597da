//! The lines on a cell.
ghost use Rattle.std.specs.Prelude.{◌≡◌, ◌++◌, ◌<◌, OnOk};
ghost use Rattle.std.specs.Option.{option_copied};
ghost use Rattle.mh_state.specs.Cell as spec;
ghost use Rattle.mh_state.specs.Looking.{paint_of};

use crate::cell::frame::{Frame, covers};
use crate::cell::given::{Given, is_seen};
use crate::cell::looking::own_mark;
use crate::object::put_absent;
use mh_base::{Area, ObjRef};
use mh_model::picture::CELLS;
use mh_model::{Cell, Object};
use mh_store::looks;
use mh_told::text::Text;
use mh_trace::put_ref;
use std::alloc::AllocError;

/// Puts what is told of the object at a reference, which paints this, where this was settled above it.
pub fn put_place(
    text: &mut Text,
    at: &ObjRef,
    found: Option<&Object>,
    cell: usize,
    seen: Given,
    given: Given,
) -> Result<(), AllocError>
    requires inside { cell < 2160 }
    ensures { OnOk result (text.new
        ≡ text.old ++ spec.place_text (paint_of seen) cell at.now (paint_of given) (option_copied found.entry)) }
{
    match found {
        Some(object) => put_present(text, object, cell, seen, given),
        None => put_absent(text, at),
    }
}

fn put_present(
    text: &mut Text,
    object: &Object,
    cell: usize,
    seen: Given,
    given: Given,
) -> Result<(), AllocError>
    requires inside { cell < 2160 }
    ensures { let own = spec.own_mark given.mark given.back in
        OnOk result (text.new ≡ text.old ++ spec.present_by (paint_of seen) cell object.now (paint_of given) own) }
{
    match own_mark(given) {
        Some(_) => put_painted(text, object, seen, given),
        None => put_unpainted(text, object, cell),
    }
}

/// Puts what an object paints, and what of it is seen.
#[tactic(auto, unfolding(crate::specs::Cell::object_line))]
fn put_painted(
    text: &mut Text,
    object: &Object,
    seen: Given,
    given: Given,
) -> Result<(), AllocError>
    ensures { OnOk result (text.new ≡ text.old ++ spec.object_line object.now (spec.painted_words (paint_of seen) (paint_of given))) }
{
    put_head(text, object)?;
    put_painted_words(text, seen, given)?;
    text.put(b"\n")
}

/// Puts a line of the object with these words.
#[tactic(auto, unfolding(crate::specs::Cell::object_line))]
fn put_said(text: &mut Text, object: &Object, words: &[u8]) -> Result<(), AllocError>
    ensures { OnOk result (text.new ≡ text.old ++ spec.object_line object.now words.now) }
{
    put_head(text, object)?;
    text.put(words)?;
    text.put(b"\n")
}

#[tactic(auto, unfolding(crate::specs::Cell::head_words))]
fn put_head(text: &mut Text, object: &Object) -> Result<(), AllocError>
    ensures { OnOk result (text.new ≡ text.old ++ spec.head_words object.now) }
{
    let fixed = object.fixed.get();
    put_ref(text, &fixed.key)?;
    text.put(b" ")?;
    text.put(fixed.class.word())
}

#[tactic(auto, unfolding(crate::specs::Cell::painted_words))]
fn put_painted_words(text: &mut Text, seen: Given, given: Given) -> Result<(), AllocError>
    ensures { OnOk result (text.new ≡ text.old ++ spec.painted_words (paint_of seen) (paint_of given)) }
{
    text.put(b" paints ")?;
    put_paint(text, given.mark, given.back)?;
    text.put(seen_words(seen.mark, seen.back, given.back))
}

/// Puts what is painted.
fn put_paint(text: &mut Text, mark: Option<(u32, u32)>, back: Option<u32>) -> Result<(), AllocError>
    ensures { OnOk result (text.new ≡ text.old ++ spec.paint_words mark back) }
{
    match (mark, back) {
        (Some((scalar, fore)), Some(back)) => put_cell_words(text, scalar, fore, back),
        (Some((scalar, fore)), None) => put_mark(text, scalar, fore),
        (None, Some(back)) => put_colour(text, back),
        (None, None) => Ok(()),
    }
}

/// What is seen of something that gives this colour: all, where no other was met before; its colour, where those gave none.
fn seen_words(mark: Option<(u32, u32)>, above: Option<u32>, back: Option<u32>) -> &'static [u8]
    ensures { result.now ≡ spec.seen_words mark above back }
{
    match (mark, above, back) {
        (None, _, _) => seen(),
        (Some(_), None, Some(_)) => colour_seen(),
        (Some(_), _, _) => behind(),
    }
}

#[tactic(auto, unfolding(crate::specs::Cell::seen))]
fn seen() -> &'static [u8]
    ensures { result.now ≡ spec.seen }
{
    b", seen"
}

#[tactic(auto, unfolding(crate::specs::Cell::colour_seen))]
fn colour_seen() -> &'static [u8]
    ensures { result.now ≡ spec.colour_seen }
{
    b", of which the colour is seen"
}

#[tactic(auto, unfolding(crate::specs::Cell::behind))]
fn behind() -> &'static [u8]
    ensures { result.now ≡ spec.behind }
{
    b", behind what lies above"
}

#[tactic(auto, unfolding(crate::specs::Cell::cell_words))]
fn put_cell_words(text: &mut Text, scalar: u32, fore: u32, back: u32) -> Result<(), AllocError>
    ensures { OnOk result (text.new ≡ text.old ++ spec.cell_words scalar fore back) }
{
    put_mark(text, scalar, fore)?;
    text.put(b" on ")?;
    put_colour(text, back)
}

#[tactic(auto, unfolding(crate::specs::Cell::mark_words))]
fn put_mark(text: &mut Text, scalar: u32, fore: u32) -> Result<(), AllocError>
    ensures { OnOk result (text.new ≡ text.old ++ spec.mark_words scalar fore) }
{
    text.put(b"\"")?;
    text.put_quoted(scalar)?;
    text.put(b"\" in ")?;
    put_colour(text, fore)
}

#[tactic(auto, unfolding(crate::specs::Cell::colour_words))]
fn put_colour(text: &mut Text, colour: u32) -> Result<(), AllocError>
    ensures { OnOk result (text.new ≡ text.old ++ spec.colour_words colour) }
{
    text.put(b"#")?;
    text.put_colour(colour)
}

/// Puts why the object paints nothing, unless it lies elsewhere on the screen.
fn put_unpainted(text: &mut Text, object: &Object, cell: usize) -> Result<(), AllocError>
    requires inside { cell < 2160 }
    ensures { OnOk result (text.new ≡ text.old ++ spec.unpainted_text cell object.now) }
{
    let area = looks::area_of(object);
    if covers_cell(&area, cell) {
        put_said(
            text,
            object,
            still_words(is_seen(object), object.body.running),
        )
    } else {
        put_elsewhere(text, object, is_off(&area))
    }
}

fn put_elsewhere(text: &mut Text, object: &Object, is_off: bool) -> Result<(), AllocError>
    ensures { OnOk result (text.new ≡ text.old ++ spec.elsewhere_text is_off object.now) }
{
    if is_off {
        put_said(text, object, off())
    } else {
        Ok(())
    }
}

fn covers_cell(area: &Area, cell: usize) -> bool
    requires inside { cell < 2160 }
    ensures { result ≡ spec.covers_cell area.now cell }
{
    covers(&Frame::of(area), cell)
}

/// Whether no cell of the screen is covered.
#[tactic(auto, unfolding(crate::specs::Cell::is_off))]
fn is_off(area: &Area) -> bool
    ensures { result ≡ spec.is_off area.now }
{
    for cell in 0..CELLS {
        if covers_cell(area, cell) {
            return false;
        }
    }
    true
}

fn still_words(is_seen: bool, is_running: bool) -> &'static [u8]
    ensures { result.now ≡ spec.still_words is_seen is_running }
{
    if is_seen {
        transparent()
    } else if is_running {
        unavailable()
    } else {
        stopped()
    }
}

#[tactic(auto, unfolding(crate::specs::Cell::transparent))]
fn transparent() -> &'static [u8]
    ensures { result.now ≡ spec.transparent }
{
    b" is transparent"
}

#[tactic(auto, unfolding(crate::specs::Cell::unavailable))]
fn unavailable() -> &'static [u8]
    ensures { result.now ≡ spec.unavailable }
{
    b" is not available"
}

#[tactic(auto, unfolding(crate::specs::Cell::stopped))]
fn stopped() -> &'static [u8]
    ensures { result.now ≡ spec.stopped }
{
    b" is stopped"
}

#[tactic(auto, unfolding(crate::specs::Cell::off))]
fn off() -> &'static [u8]
    ensures { result.now ≡ spec.off }
{
    b" is off the screen"
}

/// Puts what the cell shows, or would show if the screen were not locked.
#[tactic(auto, unfolding(crate::specs::Cell::shown_line))]
pub fn put_shown(text: &mut Text, locks: u64, shown: Cell) -> Result<(), AllocError>
    ensures { OnOk result (text.new ≡ text.old ++ spec.shown_line locks shown) }
{
    text.put(shows_words(locks))?;
    put_cell_words(text, shown.scalar, shown.fore, shown.back)?;
    text.put(b"\n")
}

fn shows_words(locks: u64) -> &'static [u8]
    ensures { result.now ≡ spec.shows_words locks }
{
    if locks == 0 { shows() } else { would_show() }
}

#[tactic(auto, unfolding(crate::specs::Cell::shows))]
fn shows() -> &'static [u8]
    ensures { result.now ≡ spec.shows }
{
    b"shows "
}

#[tactic(auto, unfolding(crate::specs::Cell::would_show))]
fn would_show() -> &'static [u8]
    ensures { result.now ≡ spec.would_show }
{
    b"the screen is locked, else it would show "
}
