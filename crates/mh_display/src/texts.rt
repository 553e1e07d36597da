//! Texts are painted row by row, and a line is laid out when its row is painted. A text, or a row, that paints nothing is
//! passed over at once.
ghost use Rattle.std.specs.Prelude.{◌≡◌, ◌<◌, ◌≤◌, ◌+◌, ◌*◌, ◌^◌, ◌-ℤ◌, drop, pos, true, Some};
ghost use Rattle.std.specs.Option.{option_copied};
ghost use Rattle.mh_model.specs.Boxes.{IsNear, or_zero};
ghost use Rattle.mh_model.specs.Layout.{unless_space};
ghost use Rattle.mh_model.specs.Looks.{marked, text_paint};
ghost use Rattle.mh_display.specs.Painting.{IsBetween, IsPainted, IsPaintedIn, IsSet, marked_at, put};
ghost use Rattle.mh_display.specs.Texts.{is_clear, letter_paint, line_paint, shown_paint};
ghost use Rattle.mh_display.specs.Places.{behind_at, now_at};

use crate::cells::{lowest, without};
use crate::characters::{SPACE, characters_of};
use crate::frame::Frame;
use crate::screen::Screen;
use crate::window::Window;
use mh_base::Area;
use mh_layout::{LaidLine, Lines};
use mh_model::picture::boxes::{first_column, first_row};

/// The colours of a text: behind its characters, and of them. Where one is missing that part paints nothing.
#[derive(Clone, Copy)]
pub struct Ink {
    pub background: Option<u32>,
    pub colour: Option<u32>,
}

/// Paints a text with these lines, which are taken one after another.
pub(crate) fn paint_text(screen: &mut Screen, area: &Area, ink: Ink, lines: &mut Lines)
    ensures { IsPainted (text_paint area.now ink.background ink.colour lines.old) screen.old screen.new }
{
    if is_clear(ink, lines) {
        return;
    }
    let own = Window::of(&Frame::of(area));
    paint_rows(screen, area, ink, lines, &own);
}

/// Whether it is known that a text with these lines paints nothing: there is no colour behind its characters, and none for
/// them or no line.
fn is_clear(ink: Ink, lines: &Lines) -> bool
    ensures { result ≡ true → is_clear ink lines.now ≡ true }
{
    ink.background.is_none() && (ink.colour.is_none() || lines.is_done())
}

/// Paints a text into the cells of the window, which it covers.
fn paint_rows(screen: &mut Screen, area: &Area, ink: Ink, lines: &mut Lines, window: &Window)
    requires low { window.now.bottom ≤ 36 }
    requires wide { window.now.right ≤ 60 }
    ensures { IsPaintedIn (letter_paint ink area.now lines.old) window.now screen.old screen.new }
{
    if window.bottom <= window.top {
        return;
    }
    let above = first_row(area);
    let before = first_column(area);
    pass_over(lines, beside(window.top, above));
    for row in window.top..window.bottom {
        let line = take_line(lines, beside(row, above));
        paint_row(screen, ink, line.as_ref(), row, before, window);
    }
}

/// Passes over the lines above this row of the box.
fn pass_over(lines: &mut Lines, row: i64)
    ensures { lines.new ≡ drop (or_zero row) lines.old }
{
    if 0 < row {
        lines.skip(row as usize);
    }
}

/// Takes the line in this row of the box, which is the next one; above the box there is none.
fn take_line<'a>(lines: &mut Lines<'a>, row: i64) -> Option<LaidLine<'a>>
    ensures line { result ≡ now_at row lines.old }
    ensures rest { lines.new ≡ behind_at row lines.old }
{
    if row < 0 { None } else { lines.next() }
}

/// Paints a row with this line, if there is one. The box begins at this column, on the screen or off it.
fn paint_row(
    screen: &mut Screen,
    ink: Ink,
    line: Option<&LaidLine>,
    row: usize,
    first: i64,
    window: &Window,
)
    requires low { row < 36 }
    requires wide { window.now.right ≤ 60 }
    requires near { IsNear (2 ^ 29) first }
    ensures { IsBetween (λ c. put (line_paint ink first (option_copied line.entry) c)) (marked_at screen.old) (marked_at screen.new) (60 * row + window.now.left) (60 * row + window.now.right) }
{
    if ink.background.is_none() && line.is_none() {
        return;
    }
    if screen.stale_in(row, window.left, window.right) == 0 {
        return;
    }
    let shown = characters_of(line, first);
    paint_characters(screen, ink, &shown, row, window);
}

/// Paints the stale cells of a row, each with the character in its column.
fn paint_characters(screen: &mut Screen, ink: Ink, shown: &[u32; 60], row: usize, window: &Window)
    requires low { row < 36 }
    requires wide { window.now.right ≤ 60 }
    ensures { IsBetween (λ c. put (shown_paint ink shown.now c)) (marked_at screen.old) (marked_at screen.new) (60 * row + window.now.left) (60 * row + window.now.right) }
{
    let mut left = screen.stale_in(row, window.left, window.right);
    while left != 0 {
        let column = lowest(left);
        paint_cell(screen, ink, shown[column], row, column);
        left = without(left, column);
    }
}

/// Paints a cell with this character.
fn paint_cell(screen: &mut Screen, ink: Ink, scalar: u32, row: usize, column: usize)
    requires low { row < 36 }
    requires wide { column < 60 }
    ensures { IsSet (marked_at screen.old) (marked_at screen.new) (60 * row + column) (put (record { back = ink.background; mark = marked ink.colour (unless_space (Some scalar)) }) (marked_at screen.old (60 * row + column))) }
{
    let mark = mark_of(ink, scalar);
    screen.put(row, column, ink.background, mark);
}

/// The character with its colour; a space paints nothing.
fn mark_of(ink: Ink, scalar: u32) -> Option<(u32, u32)>
    ensures { result ≡ marked ink.colour (unless_space (Some scalar)) }
{
    let colour = ink.colour?;
    if scalar == SPACE {
        return None;
    }
    Some((scalar, colour))
}

/// How far a row or a column of the screen is behind the first one of a box.
fn beside(place: usize, first: i64) -> i64
    requires inside { place ≤ 60 }
    requires near { IsNear (2 ^ 29) first }
    ensures number { result ≡ pos place -ℤ first }
    ensures near { IsNear (2 ^ 33) result }
{
    place as i64 - first
}
