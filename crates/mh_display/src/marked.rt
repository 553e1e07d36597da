//! `Marked`: a cell that is painted from the top down.
ghost use Rattle.std.specs.Prelude.{◌≡◌, Some, None, true, false};
ghost use Rattle.mh_display.specs.Painting.{put, put_back, put_mark, settled};

use mh_model::Cell;

/// A cell, whether something of it is still sought, and whether its character is, too.
#[derive(Clone, Copy)]
pub struct Marked {
    pub stale: bool,
    pub bare: bool,
    pub cell: Cell,
}

/// The cell with this painted under what is settled of it: a colour behind it, and a character with its colour.
#[inline(always)]
pub(crate) fn put(old: Marked, back: Option<u32>, mark: Option<(u32, u32)>) -> Marked
    ensures { result ≡ put (record { back = back; mark = mark }) old }
{
    if !old.stale {
        return old;
    }
    if old.bare {
        put_mark(old, back, mark)
    } else {
        put_back(old, back)
    }
}

fn put_back(old: Marked, back: Option<u32>) -> Marked
    ensures { result ≡ put_back back old }
{
    match back {
        None => old,
        Some(back) => Marked {
            stale: false,
            bare: false,
            cell: Cell { back, ..old.cell },
        },
    }
}

fn put_mark(old: Marked, back: Option<u32>, mark: Option<(u32, u32)>) -> Marked
    ensures { result ≡ put_mark mark back old }
{
    if let Some((scalar, fore)) = mark {
        return put_back(with_character(old, scalar, fore), back);
    }
    match back {
        None => old,
        Some(back) => Marked {
            stale: false,
            bare: false,
            cell: Cell {
                scalar: SPACE,
                fore: 0,
                back,
            },
        },
    }
}

/// The cell with its character settled.
fn with_character(old: Marked, scalar: u32, fore: u32) -> Marked
    ensures { result ≡ record { stale = true; bare = false; cell = record { scalar = scalar; fore = fore; back = old.cell.back } } }
{
    Marked {
        stale: true,
        bare: false,
        cell: Cell {
            scalar,
            fore,
            back: old.cell.back,
        },
    }
}

/// The cell, when there is nothing left to paint.
pub(crate) fn settled(old: Marked) -> Marked
    ensures { result ≡ settled old }
{
    Marked {
        stale: false,
        bare: old.bare,
        cell: left_cell(old),
    }
}

fn left_cell(old: Marked) -> Cell
    ensures { result ≡ (settled old).cell }
{
    if !old.stale {
        return old.cell;
    }
    if old.bare {
        BLACK
    } else {
        Cell {
            back: 0,
            ..old.cell
        }
    }
}

const SPACE: u32 = 32;

const BLACK: Cell = Cell {
    scalar: SPACE,
    fore: 0,
    back: 0,
};
