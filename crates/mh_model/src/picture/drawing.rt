//! `Drawing`: what is drawn into a DynamicLineArt, and the cells between which a line goes.
ghost use Rattle.std.specs.Prelude.{◌≡◌, ◌++◌, ◌∷◌, [], OnOk, OnErr, IfOk, length};

use std::alloc::{AllocError, Global};
use std::marker::Model;

/// A point, in units to the right of the upper left corner of its box and below it.
#[derive(Clone, Copy)]
pub struct Point {
    pub x: i16,
    pub y: i16,
}

/// What is drawn from one point to another (DrawLine and DrawRectangle of ISO/IEC 13522-5).
#[derive(Clone, Copy)]
pub enum Figure {
    Line,
    Rectangle,
}

/// A drawing, with the colours and the line width of the moment at which it was drawn. Colours are
/// numbers of 24 bits; a part without one paints nothing.
#[derive(Clone, Copy)]
pub struct Drawing {
    pub figure: Figure,
    pub from: Point,
    pub to: Point,
    /// Whether the line width was above 0, so that a rectangle has an edge.
    pub has_line: bool,
    pub line: Option<u32>,
    pub fill: Option<u32>,
}

/// The column and the row of a cell, on the screen or off it.
#[derive(Clone, Copy)]
pub struct Spot {
    pub column: i64,
    pub row: i64,
}

/// A drawn line, by the cells of its two ends.
#[derive(Clone, Copy)]
pub struct Stroke {
    pub first: Spot,
    pub last: Spot,
}

/// What was drawn, in order. A contract sees the list.
#[derive(Drop)]
pub struct Drawings {
    list: Vec<Drawing>,
}

impl Model for Drawings {
    ghost use Rattle.std.specs.Prelude.{List};
    ghost use Rattle.mh_model.specs.declared.picture.drawing.Drawing.{Drawing};

    ghost Value = { List Drawing };

    ghost view = { λ d. d.list.items };
}

impl Drawings {
    /// Nothing. It takes no memory.
    pub fn new(alloc: Global) -> Drawings
        ensures { result ≡ [] }
    {
        Drawings {
            list: Vec::new(alloc),
        }
    }

    pub fn as_slice(&self) -> &[Drawing]
        ensures { result.now ≡ self.now }
    {
        self.list.as_slice()
    }

    /// How many there are.
    pub fn len(&self) -> usize
        ensures { result ≡ length self.now }
    {
        self.list.len()
    }

    /// Puts a drawing on top. Where memory is refused, everything stays as it was.
    pub fn push(&mut self, drawing: Drawing) -> Result<(), AllocError>
        ensures drawn { OnOk result (self.new ≡ self.old ++ drawing ∷ []) }
        ensures kept { OnErr result (self.new ≡ self.old) }
    {
        self.list.push(drawing)?;
        Ok(())
    }

    /// Takes all of them away.
    pub fn clear(&mut self)
        ensures { self.new ≡ [] }
    {
        self.list.clear();
    }

    pub fn copy(&self, alloc: Global) -> Result<Drawings, AllocError>
        ensures { IfOk result (λ copy. copy ≡ self.now) }
    {
        let mut list = Vec::with_capacity(alloc, self.list.len())?;
        list.extend_from_slice(&self.list)?;
        Ok(Drawings { list })
    }
}
