//! `Lines`: the lines of a text in its box, one after another.
ghost use Rattle.std.specs.Prelude.{◌≡◌, ◌≤◌, true, [], drop, slice_get, length, take};
ghost use Rattle.std.specs.Option.{option_copied};
ghost use Rattle.mh_model.specs.Layout.{begin, laid};
ghost use Rattle.mh_model.specs.Scalars.{scalars_of};

use crate::breaking::first_line;
use mh_base::Area;
use mh_group::Justification;
use mh_model::Form;
use mh_model::picture::boxes::{columns_of, rows_of};
use std::marker::Model;

/// The lines of a text in its box that are still to be taken (Text of ISO/IEC 13522-5). The text is UTF-8; escape sequences
/// of ETSI ES 202 184 are passed over, and 0D parts two paragraphs. A cell is 12 units wide and 16 high, and lines below the
/// box count for nothing. A contract sees the list of them.
#[derive(Drop)]
pub struct Lines<'a> {
    form: Form,
    /// What is left of the text; none behind its last line.
    left: Option<&'a [u8]>,
    /// How many rows of the box are left.
    rows: usize,
}

impl<'a> Model for Lines<'a> {
    ghost use Rattle.std.specs.Prelude.{List, take};
    ghost use Rattle.std.specs.Option.{option_copied, option_map};
    ghost use Rattle.mh_model.specs.declared.picture.line.Line.{Line};
    ghost use Rattle.mh_model.specs.Scalars.{scalars_of};
    ghost use Rattle.mh_layout.specs.Left.{HasRoom, lines_left};

    ghost Value = { List Line };

    ghost view = { λ l. take l.rows (lines_left l.form (option_map scalars_of (option_copied l.left))) };

    ghost invariant = { λ l. HasRoom l.form (option_copied l.left) };
}

impl<'a> Lines<'a> {
    /// No lines.
    pub fn none() -> Lines<'a>
        ensures { result ≡ [] }
    {
        Lines {
            form: Form {
                width: 0,
                wraps: false,
                justification: Justification::Start,
            },
            left: None,
            rows: 0,
        }
    }

    /// The lines of a text in its box.
    #[tactic(auto, using(crate::proofs::TextLemmas::no_column))]
    pub fn of(text: &'a [u8], area: &Area, wraps: bool, justification: Justification) -> Lines<'a>
        ensures { result ≡ laid text.now area.now wraps justification }
    {
        let width = columns_of(area);
        let form = Form {
            width,
            wraps,
            justification,
        };
        let rows = rows_of(area) as usize;
        if wraps && width == 0 {
            return Lines {
                form,
                left: None,
                rows,
            };
        }
        Lines {
            form,
            left: Some(text),
            rows,
        }
    }

    /// Whether it is known that there is no line. A text without a character may have one.
    pub fn is_done(&self) -> bool
        ensures { result ≡ true → self.now ≡ [] }
    {
        self.left.is_none()
    }

    /// Takes the next line; none behind the last one.
    pub fn next(&mut self) -> Option<LaidLine<'a>>
        ensures first { result ≡ slice_get self.old 0 }
        ensures rest { self.new ≡ drop 1 self.old }
    {
        if self.rows == 0 {
            return None;
        }
        let text = self.left?;
        let head = first_line(self.form, text);
        self.left = head.rest;
        self.rows -= 1;
        Some(LaidLine {
            column: begin(self.form.justification, self.form.width, head.length as u32),
            count: head.length,
            text,
        })
    }

    /// Passes over as many.
    pub fn skip(&mut self, count: usize)
        ensures { self.new ≡ drop count self.old }
    {
        for _ in 0..count {
            if self.next().is_none() {
                return;
            }
        }
    }
}

/// A line of a text: the column at which it begins, counted from the first one of its box, and its scalars (code points of
/// Unicode), one a column.
#[derive(Drop)]
pub struct LaidLine<'a> {
    column: u32,
    count: usize,
    /// That of the line, and what stands behind it.
    text: &'a [u8],
}

impl<'a> Model for LaidLine<'a> {
    ghost use Rattle.std.specs.Prelude.{◌≤◌, length, take};
    ghost use Rattle.mh_model.specs.declared.picture.line.Line.{Line};
    ghost use Rattle.mh_model.specs.Scalars.{scalars_of};

    ghost Value = { Line };

    ghost view = { λ l. record { column = l.column; scalars = take l.count (scalars_of l.text.now) } };

    ghost invariant = { λ l. l.count ≤ length (scalars_of l.text.now) };
}

impl<'a> LaidLine<'a> {
    pub fn column(&self) -> u32
        ensures { result ≡ self.now.column }
    {
        self.column
    }

    /// How many scalars it has.
    pub fn length(&self) -> usize
        ensures { result ≡ length self.now.scalars }
    {
        self.count
    }

    /// The text from the line on: its scalars, and behind them those of the next lines and what parts them.
    pub fn text(&self) -> &[u8]
        ensures { self.now.scalars ≡ take (length self.now.scalars) (scalars_of result.now) }
    {
        self.text
    }
}

/// The column at which a line of this length begins.
fn begin(justification: Justification, width: u32, length: u32) -> u32
    requires { length ≤ width }
    ensures { result ≡ begin justification width length }
{
    match justification {
        Justification::Start => 0,
        Justification::End => width - length,
        Justification::Centre => (width - length) / 2,
    }
}
