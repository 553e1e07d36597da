//! `Area`.

/// A box on the plane of 720 by 576 units: its upper left corner, and its size, which is not negative.
#[derive(Clone, Copy, PartialEq, Eq)]
pub struct Area {
    pub x: i32,
    pub y: i32,
    pub width: i32,
    pub height: i32,
}
