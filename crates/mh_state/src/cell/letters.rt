//! The character that a text shows in a cell.
ghost use Rattle.std.specs.Prelude.{◌≡◌, ◌<◌, ◌≤◌, ◌^◌, ◌-ℤ◌, pos, slice_get};
ghost use Rattle.std.specs.Option.{option_copied};
ghost use Rattle.mh_model.specs.Boxes as boxes;
ghost use Rattle.mh_model.specs.Boxes.{IsNear};
ghost use Rattle.mh_model.specs.Layout as spec;
ghost use Rattle.mh_model.specs.Looks.{area_of, lines_of};
ghost use Rattle.mh_model.specs.Scalars.{scalars_of};

use mh_base::Area;
use mh_layout::{LaidLine, Lines, behind_first, first_of};
use mh_model::Object;
use mh_model::picture::boxes::{first_column, first_row};
use mh_store::looks::{justification, shown_text, wraps};

/// The scalar that paints nothing.
const SPACE: u32 = 0x20;

/// The character that the object's text, whose box this is, shows in a cell, if it shows one.
pub fn character_of(object: &Object, area: &Area, cell: usize) -> Option<u32>
    requires own { area.now ≡ area_of object.now }
    requires inside { cell < 2160 }
    ensures { result ≡ spec.character_at (lines_of object.now) area.now (boxes.column_of cell) (boxes.row_of cell) }
{
    let mut lines = lines_of(object, area);
    let line = line_at(&mut lines, beside(cell / 60, first_row(area)));
    character_in(line.as_ref(), beside(cell % 60, first_column(area)))
}

/// The lines of the object's text; none where it shows no text.
fn lines_of<'a>(object: &'a Object, area: &Area) -> Lines<'a>
    requires { area.now ≡ area_of object.now }
    ensures { result ≡ lines_of object.now }
{
    match shown_text(object) {
        Some(text) => Lines::of(text, area, wraps(object), justification(object)),
        None => Lines::none(),
    }
}

/// How far a row or a column of the screen is behind the first one of a box.
fn beside(place: usize, first: i64) -> i64
    requires inside { place ≤ 60 }
    requires near { IsNear (2 ^ 29) first }
    ensures number { result ≡ pos place -ℤ first }
    ensures near { IsNear (2 ^ 30) result }
{
    place as i64 - first
}

/// The line at a place, which may lie above the first one.
fn line_at<'a>(lines: &mut Lines<'a>, place: i64) -> Option<LaidLine<'a>>
    ensures { result ≡ spec.member_at lines.old place }
{
    if place < 0 {
        return None;
    }
    lines.skip(place as usize);
    lines.next()
}

/// The character of a line in this column of its box; a space is none.
fn character_in(line: Option<&LaidLine>, column: i64) -> Option<u32>
    requires near { IsNear (2 ^ 30) column }
    ensures { result ≡ spec.character_in (option_copied line.entry) column }
{
    match line {
        Some(line) => unless_space(scalar_at(line, column - i64::from(line.column()))),
        None => None,
    }
}

fn unless_space(scalar: Option<u32>) -> Option<u32>
    ensures { result ≡ spec.unless_space scalar }
{
    match scalar {
        Some(SPACE) | None => None,
        Some(scalar) => Some(scalar),
    }
}

/// The scalar of a line at a place, which may lie in front of the first one.
fn scalar_at(line: &LaidLine, place: i64) -> Option<u32>
    ensures { result ≡ spec.member_at line.now.scalars place }
{
    if place < 0 {
        return None;
    }
    scalar_behind(line, place as usize)
}

fn scalar_behind(line: &LaidLine, place: usize) -> Option<u32>
    ensures { result ≡ slice_get line.now.scalars place }
{
    if line.length() <= place {
        return None;
    }
    first_scalar(behind_first(line.text(), place))
}

fn first_scalar(text: &[u8]) -> Option<u32>
    ensures { result ≡ slice_get (scalars_of text.now) 0 }
{
    match first_of(text) {
        Some((scalar, _)) => Some(scalar),
        None => None,
    }
}
