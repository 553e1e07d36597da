//! `Line`: one line of a text, and the form that a text's lines are laid out in.
use mh_base::Seq;
use mh_group::Justification;

/// A line of a text: the column at which it begins, counted from the first one of its box, and its
/// scalars (code points of Unicode), one a column.
#[derive(Drop)]
pub struct Line {
    pub column: u32,
    pub scalars: Seq<u32>,
}

/// How lines are laid out: how many columns the box covers, and the text's TextWrapping and
/// HJustification (ISO/IEC 13522-5).
#[derive(Clone, Copy)]
pub struct Form {
    pub width: u32,
    pub wraps: bool,
    pub justification: Justification,
}
