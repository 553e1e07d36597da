//! `Picture`: what is shown, cell by cell, in three planes of numbers.

pub mod boxes;
pub mod cell;
pub mod drawing;
pub mod line;

ghost use Rattle.std.specs.Prelude.{◌≡◌, ◌<◌, IfOk, length, slice_index, slice_set, ◌∷◌, [], replicate, vec_len};
ghost use Rattle.mh_model.specs.Planes.{IsWhole, blank, flat};
ghost use Rattle.mh_model.specs.Picture.{cell_of};

use crate::Cell;
use std::alloc::{AllocError, Global};
use std::marker::Model;

/// The columns of the picture.
pub const COLUMNS: usize = 60;

/// The rows of the picture.
pub const ROWS: usize = 36;

/// The cells of the picture.
pub const CELLS: usize = 2160;

/// A picture of 60 by 36 cells, row by row (the display of ETSI ES 202 184 has 720 by 576 units, a cell
/// 12 by 16). A contract sees its three planes.
#[derive(Clone, Drop)]
pub struct Picture {
    scalars: Vec<u32>,
    fores: Vec<u32>,
    backs: Vec<u32>,
}

impl Model for Picture {
    ghost use Rattle.mh_model.specs.Planes.{Planes, IsWhole};

    ghost Value = { Planes };

    ghost view = { λ p. record { scalars = p.scalars.items; fores = p.fores.items; backs = p.backs.items } };

    ghost invariant = { λ p. IsWhole (record { scalars = p.scalars.items; fores = p.fores.items; backs = p.backs.items }) };
}

impl Picture {
    /// A picture of black spaces.
    #[tactic(auto, unfolding(crate::specs::Planes::flat))]
    pub fn black(alloc: Global) -> Result<Picture, AllocError>
        ensures { IfOk result (λ p. p ≡ blank) }
    {
        Ok(Picture {
            scalars: filled(alloc, 32)?,
            fores: filled(alloc, 0)?,
            backs: filled(alloc, 0)?,
        })
    }

    /// The cell with this number: its row times 60, and its column.
    pub fn cell(&self, at: usize) -> Cell
        requires { at < 2160 }
        ensures { result ≡ cell_of self.now at }
    {
        Cell {
            scalar: self.scalars[at],
            fore: self.fores[at],
            back: self.backs[at],
        }
    }

    /// How many cells there are.
    pub fn cells(&self) -> usize
        ensures number { result ≡ 2160 }
        ensures whole { IsWhole self.now }
    {
        self.backs.len()
    }

    /// The characters of the cells, row by row: code points of Unicode.
    pub fn scalars(&self) -> &[u32]
        ensures plane { result.now ≡ self.now.scalars }
        ensures whole { length result.now ≡ 2160 }
    {
        self.scalars.as_slice()
    }

    /// The colours of the characters, row by row: numbers of 24 bits, red in the highest eight.
    pub fn fores(&self) -> &[u32]
        ensures plane { result.now ≡ self.now.fores }
        ensures whole { length result.now ≡ 2160 }
    {
        self.fores.as_slice()
    }

    /// The colours behind the characters, row by row, in the same form.
    pub fn backs(&self) -> &[u32]
        ensures plane { result.now ≡ self.now.backs }
        ensures whole { length result.now ≡ 2160 }
    {
        self.backs.as_slice()
    }

    /// Puts the colour behind a cell.
    pub fn set_back(&mut self, at: usize, back: u32)
        requires { at < 2160 }
        ensures { self.new ≡ record self.old { backs = slice_set self.old.backs at back } }
    {
        self.backs[at] = back;
    }

    /// Puts the character of a cell, with its colour.
    pub fn set_mark(&mut self, at: usize, scalar: u32, fore: u32)
        requires { at < 2160 }
        ensures { self.new ≡ record self.old { scalars = slice_set self.old.scalars at scalar; fores = slice_set self.old.fores at fore } }
    {
        self.scalars[at] = scalar;
        self.fores[at] = fore;
    }

    /// Makes every cell what it is in another picture. It takes no memory.
    pub fn copy_from(&mut self, other: &Picture)
        ensures { self.new ≡ other.now }
    {
        copy_plane(&mut self.scalars, &other.scalars);
        copy_plane(&mut self.fores, &other.fores);
        copy_plane(&mut self.backs, &other.backs);
    }
}

#[tactic(auto, unfolding(crate::specs::Planes::flat))]
fn filled(alloc: Global, number: u32) -> Result<Vec<u32>, AllocError>
    ensures { IfOk result (λ v. v.items ≡ flat number) }
{
    let numbers = vec![in alloc; number; CELLS]?;
    Ok(numbers)
}

fn copy_plane(plane: &mut Vec<u32>, other: &Vec<u32>)
    requires whole { vec_len plane.old ≡ 2160 }
    requires same { vec_len other.now ≡ 2160 }
    ensures { plane.new.items ≡ other.now.items }
{
    plane.as_mut_slice().copy_from_slice(other.as_slice());
}
