//! Texts as they are laid out in their boxes, the cells of drawn lines, and rows of pictures.
use crate::cases::all_hold;
use mh_base::Area;
use mh_cases::{Question, bytes, said, word};
use mh_display::{Picture, changed_rows, goes_through, stroke_of};
use mh_group::Justification;
use mh_layout::{LaidLine, Lines, behind_first, first_of};
use mh_model::picture::boxes::{first_column, first_row};
use mh_model::{Drawing, Figure, Point};
use std::alloc::Global;

/// A justification, whether lines are wrapped, and a box by its place and its size in units; then a text,
/// and its lines, each behind the column of the box at which it begins.
static LAID: &str = r#"
start wrap 0 0 120 64: one two three\0d\abcdefghijklm \1b 43 04 00 ff 00 00\x\ff\y
=> 0 one two|0 three|0 abcdefghij|0 klm x\ef bf bd\y|;;
end wrap -5 3 120 32: one two three\0d\abc => 3 one two|5 three| -- the third is below the box;;
centre cut 0 0 120 64: one two three\0d\abcdefghijklm => 0 one two th|0 abcdefghij|;;
centre wrap 0 0 120 64:  => 5 | -- an empty text is an empty paragraph;;
centre wrap 0 0 120 64: a\0d 0d 1b\ => 4 a|5 |5 |;;
start wrap 0 0 11 640: a b  c => 0 a|0 b|0  |0 c| -- a column alone;;
start wrap 1 0 11 640: a b  c =>  -- no column, with wrapping;;
start cut 1 0 11 640: a b\0d\c => 0 |0 | -- no column, without it;;
start cut 0 0 120 16: a\1b 61\b\1b 20\c\1b 43 01\ => 0 ab c| -- escapes, the last one cut;;
start wrap 0 0 36 640: ab  cd   e => 0 ab |0 cd |0  e| -- two spaces, and three;;
start wrap 0 0 36 640:  abcdefg => 0  ab|0 cde|0 fg| -- a space in front, and a word that is cut;;
start wrap 0 0 36 640: abc de fgh ij => 0 abc|0 de|0 fgh|0 ij| -- a space behind a full line;;
start wrap 0 0 36 640: a b c d => 0 a b|0 c d| -- the last space of a line;;
end wrap 0 0 36 640: abc\0d\d efg\0d\ => 0 abc|2 d|0 efg|3 |;;
centre cut 0 0 48 48: a\0d\ab\0d\abc\0d\abcd => 1 a|1 ab|0 abc| -- the fourth is below the box;;
start cut 0 0 240 16: a\09 0a\b\7f c2 80 c2 9f c2 a0\c => 0 ab\c2 a0\c| -- controls take no cell;;
start cut 0 0 240 16: \c0 80 ed a0 80 f4 90 80 80 e2 82\a\e2 82 ac f0 9f 98 80 80\
=> 0 \ef bf bd ef bf bd ef bf bd ef bf bd ef bf bd ef bf bd ef bf bd ef bf bd ef bf bd ef bf bd
ef bf bd\a\e2 82 ac f0 9f 98 80 ef bf bd\| -- wrong bytes;;
start cut 0 0 240 16: a\1b 5e 02 0d 1b\b\1b 5f\c\1b 7e\d\1b 7f\e\1b 40 00\f\1b 40 7f 0d 41\
=> 0 ab_cdef| -- escapes to the end"#;

fn area_of(form: &str) -> Option<Area> {
    Some(Area {
        x: word(form, 2).parse::<i32>().ok()?,
        y: word(form, 3).parse::<i32>().ok()?,
        width: word(form, 4).parse::<i32>().ok()?,
        height: word(form, 5).parse::<i32>().ok()?,
    })
}

/// The lines of the text in this form.
fn lines_of<'a>(form: &str, text: &'a [u8]) -> Option<Lines<'a>> {
    let area = area_of(form)?;
    let wraps = word(form, 1) == "wrap";
    let justification = match word(form, 0) {
        "end" => Justification::End,
        "centre" => Justification::Centre,
        _ => Justification::Start,
    };
    Some(Lines::of(text, &area, wraps, justification))
}

fn put_line(alloc: Global, told: &mut Vec<u8>, line: &LaidLine) -> Option<()> {
    let column = line.column();
    told.extend_from_slice(format!(in alloc; "{column} ").ok()?.as_bytes())
        .ok()?;
    let mut rest = line.text();
    for _ in 0..line.length() {
        let (scalar, behind) = first_of(rest)?;
        let scalar = char::from_u32(scalar)?;
        told.extend_from_slice(format!(in alloc; "{scalar}").ok()?.as_bytes())
            .ok()?;
        rest = behind;
    }
    told.push(b'\n').ok()
}

/// More lines than any of these texts has.
const MOST_LINES: usize = 1000;

struct Laid;

impl Question for Laid {
    fn answer(alloc: Global, asked: &str, _: &[u8]) -> Option<Vec<u8>> {
        let (form, text) = asked.split_once(": ")?;
        let text = bytes(alloc, text)?;
        let mut lines = lines_of(form, text.as_slice())?;
        let mut told = Vec::new(alloc);
        for _ in 0..MOST_LINES {
            let Some(line) = lines.next() else {
                break;
            };
            put_line(alloc, &mut told, &line)?;
        }
        Some(told)
    }
}

#[test]
fn lays_texts_out(rt: HostRuntime) {
    all_hold::<Laid>(&rt, rt.alloc(), LAID);
}

/// A column and a row of the screen, and the character that a text at the right of a box shows there.
static SHOWN: &str = r#"
3 1 => o;; 6 1 => none;; 9 1 => o;; 10 1 => none;; 3 0 => none;; 5 2 => t;; 4 2 => none;; 5 3 => none"#;

struct Shown;

impl Question for Shown {
    fn answer(alloc: Global, asked: &str, _: &[u8]) -> Option<Vec<u8>> {
        let form = "end wrap -5 3 120 32";
        let column = word(asked, 0).parse::<u32>().ok()?;
        let row = word(asked, 1).parse::<u32>().ok()?;
        let area = area_of(form)?;
        let mut lines = lines_of(form, b"one two three\rx")?;
        let above = i64::from(row) - first_row(&area);
        if above < 0 {
            return said(alloc, b"none");
        }
        lines.skip(above as usize);
        let Some(line) = lines.next() else {
            return said(alloc, b"none");
        };
        let place = i64::from(column)
            .checked_sub(first_column(&area))?
            .checked_sub(i64::from(line.column()))?;
        character_told(alloc, scalar_in(&line, place))
    }
}

/// The scalar at this place of the line, if it has one there.
fn scalar_in(line: &LaidLine, place: i64) -> Option<u32> {
    if place < 0 {
        return None;
    }
    let place = place as usize;
    if line.length() <= place {
        return None;
    }
    let (scalar, _) = first_of(behind_first(line.text(), place))?;
    Some(scalar)
}

/// A character, if there is one.
fn character_told(alloc: Global, found: Option<u32>) -> Option<Vec<u8>> {
    match found {
        Some(scalar) if scalar != 0x20 => {
            let scalar = char::from_u32(scalar)?;
            Some(format!(in alloc; "{scalar}").ok()?.into_bytes())
        }
        _ => said(alloc, b"none"),
    }
}

#[test]
fn shows_characters_in_cells(rt: HostRuntime) {
    all_hold::<Shown>(&rt, rt.alloc(), SHOWN);
}

/// The two ends of a drawn line in units, and a cell by its column and row; whether the line goes through it.
static DRAWN: &str = r#"
0 0 48 16 0 0 => yes;; 0 0 48 16 1 0 => yes;; 0 0 48 16 2 0 => no;; 0 0 48 16 2 1 => yes;;
0 0 48 16 4 1 => yes;; 0 0 48 16 5 1 => no;; 0 0 48 16 -1 0 => no;; 48 16 0 0 2 1 => yes;;
48 16 0 0 1 0 => yes;; 48 16 0 0 1 1 => no;; 0 0 12 -64 0 -1 => yes;; 0 0 12 -64 1 -2 => yes;;
0 0 12 -64 0 -2 => no;; 36 48 36 48 3 3 => yes;; 36 48 36 48 3 4 => no;; -1 -1 -1 -1 -1 -1 => yes;;
-1 -1 0 0 0 0 => yes;; 11 15 0 0 0 0 => yes;; -10000 0 10000 0 59 0 => yes"#;

fn point_of(asked: &str, at: usize) -> Option<Point> {
    Some(Point {
        x: word(asked, at).parse::<i16>().ok()?,
        y: word(asked, at.checked_add(1)?).parse::<i16>().ok()?,
    })
}

/// The drawing of a line.
fn line_of(asked: &str) -> Option<Drawing> {
    Some(Drawing {
        figure: Figure::Line,
        from: point_of(asked, 0)?,
        to: point_of(asked, 2)?,
        has_line: true,
        line: Some(0),
        fill: None,
    })
}

/// A box at the upper left corner of the screen.
const CORNER: Area = Area {
    x: 0,
    y: 0,
    width: 720,
    height: 576,
};

struct Drawn;

impl Question for Drawn {
    fn answer(alloc: Global, asked: &str, _: &[u8]) -> Option<Vec<u8>> {
        let column = word(asked, 4).parse::<i32>().ok()?;
        let row = word(asked, 5).parse::<i32>().ok()?;
        let stroke = stroke_of(&CORNER, &line_of(asked)?);
        if goes_through(&stroke, column, row) {
            said(alloc, b"yes")
        } else {
            said(alloc, b"no")
        }
    }
}

#[test]
fn draws_lines_through_cells(rt: HostRuntime) {
    all_hold::<Drawn>(&rt, rt.alloc(), DRAWN);
}

/// Cells that get another colour, and the rows that differ then.
static CHANGED: &str = r#"
0 => 0 ;; 59 => 0 ;; 60 => 1 ;; 59 60 => 0 1 ;; 2159 => 35 ;; 119 2100 2099 => 1 34 35 "#;

/// Gives these cells of a picture another colour.
fn recolour(picture: &mut Picture, cells: &str) -> Option<()> {
    for cell in cells.split(' ') {
        let at = cell.parse::<usize>().ok()?;
        if at < 2160 {
            picture.set_back(at, 255);
        }
    }
    Some(())
}

/// Puts the numbers of the rows that differ.
fn put_rows(alloc: Global, told: &mut Vec<u8>, rows: &[bool]) -> Option<()> {
    let mut row = 0;
    for differs in rows {
        if *differs {
            told.extend_from_slice(format!(in alloc; "{row} ").ok()?.as_bytes())
                .ok()?;
        }
        row = u32::checked_add(row, 1)?;
    }
    Some(())
}

struct Changed;

impl Question for Changed {
    fn answer(alloc: Global, asked: &str, _: &[u8]) -> Option<Vec<u8>> {
        let black = Picture::black(alloc).ok();
        let (before, mut after) = black.zip(Picture::black(alloc).ok())?;
        let recoloured = recolour(&mut after, asked);
        let mut told = Vec::new(alloc);
        let put = put_rows(alloc, &mut told, &changed_rows(&before, &after));
        recoloured.and(put).and(Some(told))
    }
}

#[test]
fn tells_rows_that_changed(rt: HostRuntime) {
    all_hold::<Changed>(&rt, rt.alloc(), CHANGED);
}
