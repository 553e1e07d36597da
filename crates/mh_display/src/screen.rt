//! `Screen`: the picture that is kept, and which of its cells are still to be painted.
ghost use Rattle.std.specs.Prelude.{◌≡◌, ◌<◌, ◌≤◌, ◌+◌, ◌*◌, IfOk, ℕ, true, false, IsTrue};
ghost use Rattle.std.specs.Option.{option_copied};
ghost use Rattle.mh_model.specs.Planes.{blank};
ghost use Rattle.mh_display.specs.Bits.{AreStale};
ghost use Rattle.mh_display.specs.Painting.{IsAll, IsComplete, IsSet, marked_at, put, renewed};
ghost use Rattle.mh_display.specs.Surface.{IsClean, IsStale, Spoils};
ghost use Rattle.mh_display.specs.Windows.{has as has_lem};

use crate::cells::{has, has_none, lowest, rows_of, set, stretch, with_row, without};
use crate::marked::{Marked, put};
use crate::spoiling::spoil_found;
use crate::window::Window;
use mh_model::{Object, Picture};
use std::alloc::{AllocError, Global};
use std::marker::Model;

/// All cells of a row.
const ALL: u64 = 0x0FFF_FFFF_FFFF_FFFF;

/// All rows.
const ALL_ROWS: u64 = 0x000F_FFFF_FFFF;

/// The picture that is kept, and the cells of it that are still to be painted.
#[derive(Drop)]
pub struct Screen {
    picture: Picture,
    /// A bit for each cell, a number for each row: of those that are to be painted.
    stale: [u64; 36],
    /// A bit for each row: one that has none has no cell that is to be painted.
    rows: u64,
    /// Of those whose character is sought, too, while the picture is painted.
    bare: [u64; 36],
    /// Whether nothing has been painted since all cells were to be painted anew.
    spoilt: bool,
}

impl Model for Screen {
    ghost use Rattle.mh_display.specs.Painting.{IsMarked};
    ghost use Rattle.mh_display.specs.Surface.{Surface};

    ghost Value = { Surface };

    ghost view = { λ s. record { planes = s.picture; marks = s.stale; bare = s.bare } };

    ghost invariant = { λ s. IsMarked s.spoilt s.rows (record { planes = s.picture; marks = s.stale; bare = s.bare }) };
}

impl Screen {
    /// Black, with nothing to be painted.
    pub fn new(alloc: Global) -> Result<Screen, AllocError>
        ensures black { IfOk result (λ s. s.planes ≡ blank) }
        ensures clean { IfOk result (λ s. IsClean s.marks) }
    {
        let picture = Picture::black(alloc)?;
        let _ = picture.cells();
        Ok(Screen {
            picture,
            stale: [0; 36],
            rows: 0,
            bare: [0; 36],
            spoilt: false,
        })
    }

    /// The picture. Its stale cells may not be right.
    pub fn picture(&self) -> &Picture
        ensures { result.now ≡ self.now.planes }
    {
        &self.picture
    }

    /// All cells are to be painted anew.
    pub fn spoil_all(&mut self)
        ensures same { self.new.planes ≡ self.old.planes }
        ensures all { IsStale self.new.marks }
    {
        self.stale = [ALL; 36];
        self.rows = ALL_ROWS;
        self.spoilt = true;
    }

    /// Whether it is known that all cells are to be painted anew, so that no more can be spoilt.
    pub fn is_all_stale(&self) -> bool
        ensures { result ≡ true → IsStale self.now.marks }
    {
        self.spoilt
    }

    /// The cells of the object's box are to be painted anew, if it is painted.
    pub fn spoil(&mut self, found: Option<&Object>)
        ensures same { self.new.planes ≡ self.old.planes }
        ensures spoilt { Spoils (option_copied found.entry) self.old.marks self.new.marks }
    {
        self.rows = ALL_ROWS;
        spoil_found(&mut self.stale, found);
    }

    /// That the screen is complete.
    pub(crate) fn is_whole(&self) -> bool
        ensures { IsComplete self.now }
    {
        self.spoilt
    }

    /// The stale cells of a row, from the first up to the last, as bits.
    pub(crate) fn stale_in(&self, row: usize, first: usize, last: usize) -> u64
        requires low { row < 36 }
        requires wide { last ≤ 60 }
        ensures { AreStale self.now row first last result }
    {
        self.stale[row] & stretch(first, last)
    }

    /// Whether no cell of the window is to be painted. Only rows that have their bit are looked at.
    pub(crate) fn is_settled_in(&self, window: &Window) -> bool
        requires low { window.now.bottom ≤ 36 }
        requires wide { window.now.right ≤ 60 }
        ensures { result ≡ true → (c : ℕ) → c < 2160 → has_lem window.now c ≡ true → (marked_at self.now c).stale ≡ false }
    {
        let mut left = self.rows & stretch(window.top, window.bottom);
        while left != 0 {
            let row = lowest(left);
            if self.stale_in(row, window.left, window.right) != 0 {
                return false;
            }
            left = without(left, row);
        }
        true
    }

    /// Whether the cell is to be painted.
    #[inline(always)]
    pub(crate) fn is_stale(&self, row: usize, column: usize) -> bool
        requires low { row < 36 }
        requires wide { column < 60 }
        ensures { result ≡ (marked_at self.now (60 * row + column)).stale }
    {
        has(&self.stale, row, column)
    }

    /// Whether no cell is to be painted.
    pub(crate) fn is_clean(&self) -> bool
        ensures { result ≡ true → IsClean self.now.marks }
    {
        has_none(&self.stale)
    }

    /// Whether no cell is to be painted. It takes their bits from the rows in which none is any more.
    pub(crate) fn is_done(&mut self) -> bool
        ensures same { self.new ≡ self.old }
        ensures clean { result ≡ true → IsClean self.new.marks }
    {
        self.rows = rows_of(&self.stale);
        self.rows == 0
    }

    /// Of the stale cells nothing is settled.
    pub(crate) fn renew(&mut self)
        ensures { IsAll (λ c. renewed) (marked_at self.old) (marked_at self.new) }
    {
        self.bare = self.stale;
        self.rows = rows_of(&self.stale);
    }

    /// Paints this under what is settled of a cell: a colour behind it, and a character with its colour.
    #[inline(always)]
    pub(crate) fn put(
        &mut self,
        row: usize,
        column: usize,
        back: Option<u32>,
        mark: Option<(u32, u32)>,
    )
        requires low { row < 36 }
        requires wide { column < 60 }
        ensures { IsSet (marked_at self.old) (marked_at self.new) (60 * row + column) (put (record { back = back; mark = mark }) (marked_at self.old (60 * row + column))) }
    {
        self.set(row, column, put(self.at(row, column), back, mark));
    }

    /// The cell with its marks.
    #[inline(always)]
    pub(crate) fn at(&self, row: usize, column: usize) -> Marked
        requires low { row < 36 }
        requires wide { column < 60 }
        ensures { result ≡ marked_at self.now (60 * row + column) }
    {
        Marked {
            stale: has(&self.stale, row, column),
            bare: has(&self.bare, row, column),
            cell: self.picture.cell(60 * row + column),
        }
    }

    /// Puts a cell with its marks.
    #[inline(always)]
    pub(crate) fn set(&mut self, row: usize, column: usize, new: Marked)
        requires low { row < 36 }
        requires wide { column < 60 }
        ensures { IsSet (marked_at self.old) (marked_at self.new) (60 * row + column) new }
    {
        self.rows = with_row(self.rows, row, new.stale);
        let at = 60 * row + column;
        self.picture.set_mark(at, new.cell.scalar, new.cell.fore);
        self.picture.set_back(at, new.cell.back);
        set(&mut self.stale, row, column, new.stale);
        set(&mut self.bare, row, column, new.bare);
        self.spoilt = false;
    }
}
