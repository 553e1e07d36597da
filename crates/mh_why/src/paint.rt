//! An explanation in colours.
//!
//! Promise: colours are all that is added.
ghost use Rattle.std.specs.Prelude.{◌≡◌, ◌++◌, ◌+◌, ◌≤◌, OnOk, IfOk, true, length};
ghost use Rattle.std.specs.List.{prefix_len};
ghost use Rattle.mh_why.specs.Painting.{ColoursAreAllThatIsAdded, order_bytes, coloured, is_space, begins_with, coloured_from, painted_line, painted_whole, painted};

use crate::place::without_terminator;
use bstr::ByteSlice;
use mh_told::text::Text;
use std::alloc::{AllocError, Global};

// What a terminal is told: to write in bold, red, yellow or green, and to write as before.
pub const BOLD: &[u8] = b"\x1b[1m";

pub const RED: &[u8] = b"\x1b[1;31m";

pub const YELLOW: &[u8] = b"\x1b[33m";

pub const GREEN: &[u8] = b"\x1b[32m";

pub const BACK: &[u8] = b"\x1b[0m";

/// What a terminal is told about what it writes next.
#[derive(Clone, Copy)]
pub(crate) enum Order {
    Bold,
    Red,
    Yellow,
    Green,
    /// As before.
    Back,
}

impl Order {
    fn bytes(self) -> &'static [u8]
        ensures { result.now ≡ order_bytes self }
    {
        match self {
            Order::Bold => BOLD,
            Order::Red => RED,
            Order::Yellow => YELLOW,
            Order::Green => GREEN,
            Order::Back => BACK,
        }
    }
}

/// The text in colours.
#[tactic(auto, unfolding(crate::specs::Painting::painted))]
pub fn painted(alloc: Global, text: &[u8]) -> Result<Text, AllocError>
    ensures { IfOk result (λ colours. colours ≡ painted text.now) }
{
    let mut painted = Text::new(alloc);
    for line in text.lines_with_terminator() {
        put_whole(&mut painted, line)?;
    }
    Ok(painted)
}

/// The law that colours are all that is added.
pub fn colours_are_all_that_is_added()
    ensures { ColoursAreAllThatIsAdded }
{}

/// Puts a line and its end, which has no colour.
fn put_whole(text: &mut Text, line: &[u8]) -> Result<(), AllocError>
    ensures { OnOk result (text.new ≡ text.old ++ painted_whole line.now) }
{
    let bare = without_terminator(line);
    put_line(text, bare)?;
    text.put(&line[bare.len()..])
}

/// Puts a line without its end.
#[tactic(auto, unfolding(crate::specs::Painting::painted_line))]
fn put_line(text: &mut Text, line: &[u8]) -> Result<(), AllocError>
    ensures { OnOk result (text.new ≡ text.old ++ painted_line line.now) }
{
    let spaces = spaces_before(line);
    if spaces == 0 {
        return put_coloured(text, Order::Bold, line);
    }
    if begins_with(b"|", &line[spaces..]) {
        return put_coloured(text, Order::Red, line);
    }
    if begins_with(b"  Cause:", line) {
        return put_coloured_from(text, 2, 6, Order::Yellow, line);
    }
    if begins_with(b"  Mend:", line) {
        return put_coloured_from(text, 2, 5, Order::Green, line);
    }
    text.put(line)
}

/// How many spaces a line begins with.
fn spaces_before(line: &[u8]) -> usize
    ensures exact { result ≡ prefix_len is_space line.now }
    ensures within { result ≤ length line.now }
{
    line.iter().take_while(|byte| is_space(**byte)).count()
}

fn is_space(byte: u8) -> bool
    ensures { result ≡ is_space byte }
{
    byte == b' '
}

/// Whether bytes begin with a word.
pub fn begins_with(word: &[u8], bytes: &[u8]) -> bool
    ensures exact { result ≡ begins_with word.now bytes.now }
    ensures within { result ≡ true → length word.now ≤ length bytes.now }
{
    bytes.starts_with(word)
}

/// Puts bytes in a colour.
fn put_coloured(text: &mut Text, order: Order, bytes: &[u8]) -> Result<(), AllocError>
    ensures { OnOk result (text.new ≡ text.old ++ coloured order bytes.now) }
{
    text.put(order.bytes())?;
    text.put(bytes)?;
    text.put(Order::Back.bytes())
}

/// Puts so many bytes as they are, so many behind them in a colour, and the rest as it is.
fn put_coloured_from(
    text: &mut Text,
    first: usize,
    size: usize,
    order: Order,
    bytes: &[u8],
) -> Result<(), AllocError>
    requires { first + size ≤ length bytes.now }
    ensures { OnOk result (text.new ≡ text.old ++ coloured_from first size order bytes.now) }
{
    let (front, behind) = bytes.split_at(first);
    let (word, rest) = behind.split_at(size);
    text.put(front)?;
    put_coloured(text, order, word)?;
    text.put(rest)
}
