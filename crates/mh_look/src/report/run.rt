//! One run of a row's line, read back into the cells that it stands for.
ghost use Rattle.std.specs.Prelude.{◌≡◌, ◌<◌, ◌≤◌, ◌++◌, OnOk, IfOk, IfSome, true, length, map};
ghost use Rattle.std.specs.List.{list_all};
ghost use Rattle.mh_look.specs.Report.{is_shown};
ghost use Rattle.mh_look.specs.Cells.{AreColours, AreColoursFound, IsMarkedFound};
ghost use Rattle.mh_look.specs.Cells.{IsPlaceFound, IsPlaceBehindFound, IsRunFound, StandsBehind};
ghost use Rattle.mh_look.specs.Cells.{coloured, filled, with_run};

use crate::report::characters::read_characters;
use crate::report::number::{read_colour, read_number};
use mh_model::Cell;
use mh_model::picture::COLUMNS;
use std::alloc::{AllocError, Global};

/// A space, black on black: what stands in the cells of which nothing is printed.
pub const BLACK: Cell = Cell {
    scalar: 32,
    fore: 0,
    back: 0,
};

/// The bytes of a run's colours: a space, six digits, a slash and six digits.
const COLOURS: usize = 14;

/// Where a run lies, and its colours.
#[derive(Clone, Copy)]
struct Place {
    first: usize,
    last: usize,
    fore: u32,
    back: u32,
}

/// Reads the run with which the bytes begin, puts the cells up to its end behind those that are
/// there, and answers how many bytes it has; none where they begin with no run that can stand
/// behind these cells, and then the cells stay.
pub fn read_run(
    alloc: Global,
    bytes: &[u8],
    cells: &mut Vec<Cell>,
) -> Result<Option<usize>, AllocError>
    ensures found { IfOk result (IsRunFound bytes.now cells.old.items cells.new.items) }
    ensures whole { IfOk result (λ found.
        length cells.old.items ≤ 60 → length cells.new.items ≤ 60) }
    ensures shown { IfOk result (λ found.
        list_all is_shown cells.old.items ≡ true → list_all is_shown cells.new.items ≡ true) }
    ensures within { IfOk result (λ found. IfSome found (λ n. n ≤ length bytes.now)) }
    ensures some { IfOk result (λ found. IfSome found (λ n. 0 < n)) }
{
    let Some((place, length)) = read_place_behind(bytes, cells.len()) else {
        return Ok(None);
    };
    let mut scalars = Vec::new(alloc);
    let Some(more) = read_characters(&bytes[length..], &mut scalars)? else {
        return Ok(None);
    };
    if scalars.len() > place.last + 1 - place.first {
        return Ok(None);
    }
    put_run(cells, place, scalars.as_slice())?;
    Ok(Some(length + more))
}

/// Puts the cells of a run behind the cells, with black ones between them.
fn put_run(cells: &mut Vec<Cell>, place: Place, scalars: &[u32]) -> Result<(), AllocError>
    requires { place.last < 60 }
    ensures { OnOk result (cells.new.items ≡ with_run cells.old.items place scalars.now) }
{
    fill_up(cells, place.first, BLACK)?;
    put_characters(cells, scalars, place.fore, place.back)?;
    let space = Cell {
        scalar: 32,
        fore: place.fore,
        back: place.back,
    };
    fill_up(cells, place.last + 1, space)
}

/// Puts this cell behind the cells until there are so many.
pub fn fill_up(cells: &mut Vec<Cell>, count: usize, cell: Cell) -> Result<(), AllocError>
    ensures { OnOk result (cells.new.items ≡ filled cells.old.items count cell) }
{
    while cells.len() < count {
        cells.push(cell)?;
    }
    Ok(())
}

/// Puts a cell in these colours for each of the characters.
fn put_characters(
    cells: &mut Vec<Cell>,
    scalars: &[u32],
    fore: u32,
    back: u32,
) -> Result<(), AllocError>
    ensures { OnOk result (
        cells.new.items ≡ cells.old.items ++ map (coloured fore back) scalars.now) }
{
    for scalar in scalars {
        cells.push(Cell {
            scalar: *scalar,
            fore,
            back,
        })?;
    }
    Ok(())
}

/// The place of the run with which the bytes begin, and how many bytes it has.
fn read_place(bytes: &[u8]) -> Option<(Place, usize)>
    ensures found { IsPlaceFound bytes.now result }
    ensures within { IfSome result (λ found. found.1 ≤ length bytes.now) }
    ensures some { IfSome result (λ found. 0 < found.1) }
    ensures colours { IfSome result (λ found. AreColours found.0.fore found.0.back) }
{
    let (first, before) = read_marked(bytes, b' ')?;
    let (last, length) = read_marked(&bytes[before..], b'-')?;
    let (fore, back) = read_colours(&bytes[before + length..])?;
    let place = Place {
        first: first as usize,
        last: last as usize,
        fore,
        back,
    };
    Some((place, before + length + COLOURS))
}

/// The same of a place that a run behind so many cells of a row can have.
fn read_place_behind(bytes: &[u8], count: usize) -> Option<(Place, usize)>
    ensures found { IsPlaceBehindFound count bytes.now result }
    ensures stands { IfSome result (λ found. StandsBehind count found.0) }
    ensures within { IfSome result (λ found. found.1 ≤ length bytes.now) }
    ensures some { IfSome result (λ found. 0 < found.1) }
{
    let (place, length) = read_place(bytes)?;
    if place.first < count || place.last < place.first || place.last >= COLUMNS {
        return None;
    }
    Some((place, length))
}

/// The number behind this byte, and how many bytes both have.
fn read_marked(bytes: &[u8], mark: u8) -> Option<(u64, usize)>
    ensures found { IsMarkedFound mark bytes.now result }
    ensures within { IfSome result (λ found. found.1 ≤ length bytes.now) }
{
    let [first, behind @ ..] = bytes else {
        return None;
    };
    if *first != mark {
        return None;
    }
    let (number, digits) = read_number(behind)?;
    Some((number, digits + 1))
}

/// The two colours that stand behind a space with a slash between them.
fn read_colours(bytes: &[u8]) -> Option<(u32, u32)>
    ensures found { AreColoursFound bytes.now result }
    ensures within { IfSome result (λ found. AreColours found.0 found.1) }
    ensures long { IfSome result (λ found. 14 ≤ length bytes.now) }
{
    let [b' ', at_fore @ ..] = bytes else {
        return None;
    };
    let fore = read_colour(at_fore)?;
    let [b'/', at_back @ ..] = &at_fore[6..] else {
        return None;
    };
    let back = read_colour(at_back)?;
    Some((fore, back))
}
