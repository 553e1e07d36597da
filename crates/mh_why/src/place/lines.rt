//! `Lines`: where the lines of a text begin, made once, so that a place is found without going over the text.
//!
//! A long line has stops, from which its characters are counted. Which of them is near is only advice: what is
//! counted from any of them is right.

pub(crate) mod stops;

ghost use Rattle.std.specs.Prelude.{◌≡◌, ◌≤◌, ◌<◌, ◌+◌, ◌-◌, [], IfOk, drop, length, slice_index, take};
ghost use Rattle.bstr.specs.Text.{lines_of};
ghost use Rattle.mh_why.specs.Lines.{IsExtent, IsStop, IsTable, before_in, starts_from};
ghost use Rattle.mh_why.specs.Places.{line_at, line_in};

use crate::place::line::{Line, line_start};
use crate::place::lines::stops::stops_of;
use crate::place::stop::Stop;
use crate::place::without_terminator;
use bstr::ByteSlice;
use std::alloc::{AllocError, Global};
use std::marker::Model;

/// How many bytes before a place its stop has to be: those characters that are shown before it take no more.
const MARGIN_BYTES: usize = 160;

/// The table of a text's lines.
#[derive(Drop)]
pub(crate) struct Lines {
    /// Where each line begins, and where the last one ends.
    starts: Vec<usize>,
    /// As they stand in the text.
    stops: Vec<Stop>,
}

impl Model for Lines {
    ghost use Rattle.mh_why.specs.Lines.{Lines as LinesLem};

    ghost Value = { LinesLem };

    ghost view = { λ l. record { starts = l.starts.items; stops = l.stops.items } };
}

impl Lines {
    pub(crate) fn of_text(alloc: Global, text: &[u8]) -> Result<Lines, AllocError>
        ensures { IfOk result (λ lines. IsTable text.now lines) }
    {
        let starts = starts_of(alloc, text)?;
        let stops = stops_of(alloc, text)?;
        Ok(Lines { starts, stops })
    }

    /// The line in which so many bytes of the text stand before a place. The end of the text belongs to the
    /// last line. That is another rule than the one of `mh_places`, which has the end behind a last line feed
    /// on a line of its own: here a line is shown, and there is none.
    pub(crate) fn line_at<'a>(&self, text: &'a [u8], offset: usize) -> Line<'a>
        requires { IsTable text.now self.now }
        ensures { result ≡ line_at text.now offset }
    {
        let starts = self.starts.as_slice();
        let count = count_of(starts, text);
        if count == 0 {
            return no_line();
        }
        let index = index_of(starts, count, offset);
        let (start, end) = extent(starts, text, index);
        let bytes = &text[start..end];
        let before = before_in(bytes, index + 1 == count, offset - start);
        Line {
            number: index as u64 + 1,
            bytes,
            before,
            stop: self.stop_before(text, start, end, before),
        }
    }

    /// A stop of the line that begins and ends so, before so many of its bytes.
    fn stop_before(&self, text: &[u8], start: usize, end: usize, before: usize) -> Stop
        requires table { IsTable text.now self.now }
        requires there { before ≤ end - start }
        requires within { end ≤ length text.now }
        ensures is { IsStop (take (end - start) (drop start text.now)) result }
        ensures before { result.before ≤ before }
    {
        let sought = before.saturating_sub(MARGIN_BYTES);
        let behind = self
            .stops
            .as_slice()
            .partition_point(|stop| is_before(stop, start, sought));
        match self.stops.get(behind.saturating_sub(1)) {
            Some(stop) if stop.start == start && stop.before <= sought => *stop,
            _ => line_start(start),
        }
    }
}

/// Whether the stop stands up to the place behind so many bytes of the line that begins there.
fn is_before(stop: &Stop, start: usize, before: usize) -> bool {
    stop.start < start || stop.start == start && stop.before <= before
}

/// The line of a text in which nothing is.
fn no_line() -> Line<'static>
    ensures { result ≡ line_in 1 [] 0 }
{
    Line {
        number: 1,
        bytes: &[],
        before: 0,
        stop: line_start(0),
    }
}

/// How many bytes of the line stand before what is meant: where the line is the last one, no more than it
/// shows.
fn before_in(line: &[u8], is_last: bool, before: usize) -> usize
    ensures { result ≡ before_in line.now is_last before }
{
    if is_last {
        before.min(without_terminator(line).len())
    } else {
        before
    }
}

/// How many lines the text has that begin so.
#[tactic(auto, using(crate::proofs::LinesLemmas::starts_length))]
fn count_of(starts: &[usize], text: &[u8]) -> usize
    requires { starts.now ≡ starts_from 0 (lines_of text.now) }
    ensures exact { result ≡ length (lines_of text.now) }
    ensures one_more { length starts.now ≡ result + 1 }
{
    starts.len() - 1
}

/// The number, from 0 on, of the line in which the byte behind so many stands, or the last one.
fn index_of(starts: &[usize], count: usize, offset: usize) -> usize
    requires some { 0 < count }
    requires there { count < length starts.now }
    requires first { slice_index starts.now 0 ≤ offset }
    ensures there { result < count }
    ensures begun { slice_index starts.now result ≤ offset }
    ensures before { result + 1 < count → offset < slice_index starts.now (result + 1) }
{
    let mut low = 0;
    let mut high = count;
    while low + 1 < high {
        let middle = low + (high - low) / 2;
        if starts[middle] <= offset {
            low = middle;
        } else {
            high = middle;
        }
    }
    low
}

/// Where the line with this number, from 0 on, begins and ends.
fn extent(starts: &[usize], text: &[u8], index: usize) -> (usize, usize)
    requires table { starts.now ≡ starts_from 0 (lines_of text.now) }
    requires there { index + 1 < length starts.now }
    ensures is { IsExtent text.now index result.0 result.1 }
    ensures start { result.0 ≡ slice_index starts.now index }
    ensures end { result.1 ≡ slice_index starts.now (index + 1) }
{
    (starts[index], starts[index + 1])
}

/// Where each line begins, and where the last one ends.
#[tactic(auto, using(crate::proofs::LinesLemmas::joined_length))]
fn starts_of(alloc: Global, text: &[u8]) -> Result<Vec<usize>, AllocError>
    ensures { IfOk result (λ starts. starts.items ≡ starts_from 0 (lines_of text.now)) }
{
    let mut starts = Vec::new(alloc);
    let mut start = 0;
    for line in text.lines_with_terminator() {
        starts.push(start)?;
        start += line.len();
    }
    starts.push(start)?;
    Ok(starts)
}
