//! Looking down the display stack at a cell.
ghost use Rattle.std.specs.Prelude.{◌≡◌, ◌++◌, ◌<◌, IfOk, None, map};
ghost use Rattle.mh_model.specs.Looks.{nothing};
ghost use Rattle.mh_model.specs.Picture.{cell_under, paint_at};
ghost use Rattle.mh_model.specs.Service.{object_at};
ghost use Rattle.mh_model.specs.State.{all};
ghost use Rattle.mh_state.specs.Cell as spec;
ghost use Rattle.mh_state.specs.Looking.{paint_of};

use crate::cell::given::{Given, NOTHING, given_by};
use crate::cell::words::put_place;
use mh_base::ObjRef;
use mh_model::Cell;
use mh_store::Objects;
use mh_told::text::Text;
use std::alloc::AllocError;

/// The scalar that is shown where nothing is painted but a colour.
const SPACE: u32 = 32;

/// Puts what is told of each of these, the topmost first, and answers what the cell shows.
pub fn look_down(
    text: &mut Text,
    objects: &Objects,
    refs: &[ObjRef],
    cell: usize,
) -> Result<Cell, AllocError>
    requires inside { cell < 2160 }
    ensures told { IfOk result (λ shown. text.new ≡ text.old ++ spec.down_text (all objects.now) cell nothing refs.now) }
    ensures shown { IfOk result (λ shown. shown ≡ cell_under (map (paint_at (all objects.now) cell) refs.now)) }
{
    let mut seen = NOTHING;
    for at in refs {
        seen = look_at(text, objects, at, cell, seen)?;
    }
    Ok(settled_as(seen))
}

/// Puts what is told of this one, where this was settled above it, and answers what is settled with it.
fn look_at(
    text: &mut Text,
    objects: &Objects,
    at: &ObjRef,
    cell: usize,
    seen: Given,
) -> Result<Given, AllocError>
    requires inside { cell < 2160 }
    ensures told { let found = object_at at.now (all objects.now) in
        IfOk result (λ after. text.new ≡ text.old ++ spec.place_text (paint_of seen) cell at.now (paint_at (all objects.now) cell at.now) found) }
    ensures after { IfOk result (λ after. paint_of after ≡ spec.under (paint_of seen) (paint_at (all objects.now) cell at.now)) }
{
    let found = objects.get(at);
    let given = given_by(found, cell);
    put_place(text, at, found, cell, seen, given)?;
    Ok(under(seen, given))
}

/// What is settled with what is painted below.
fn under(seen: Given, given: Given) -> Given
    ensures { paint_of result ≡ spec.under (paint_of seen) (paint_of given) }
{
    Given {
        back: seen.back.or(given.back),
        mark: seen.mark.or(own_mark(given)),
    }
}

/// What is painted as a character with its colour: a black space where it is a colour alone.
pub fn own_mark(given: Given) -> Option<(u32, u32)>
    ensures { result ≡ spec.own_mark given.mark given.back }
{
    match given.mark {
        Some(mark) => Some(mark),
        None => space_on(given.back),
    }
}

fn space_on(back: Option<u32>) -> Option<(u32, u32)>
    ensures { result ≡ spec.own_mark None back }
{
    match back {
        Some(_) => Some((SPACE, 0)),
        None => None,
    }
}

/// The cell, where nothing lies below.
fn settled_as(seen: Given) -> Cell
    ensures { result ≡ spec.settled_as seen.mark seen.back }
{
    let (scalar, fore) = seen.mark.unwrap_or((SPACE, 0));
    Cell {
        scalar,
        fore,
        back: seen.back.unwrap_or(0),
    }
}
