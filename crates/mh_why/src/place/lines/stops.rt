//! The stops of long lines.
ghost use Rattle.std.specs.Prelude.{◌≡◌, ◌≤◌, ◌<◌, ◌+◌, true, All, IfOk, OnOk, drop, length};
ghost use Rattle.bstr.specs.Utf8.{continues};
ghost use Rattle.mh_why.specs.Lines.{IsStop, IsStopOf, is_clean};

use crate::place::characters_in;
use crate::place::line::line_start;
use crate::place::stop::Stop;
use bstr::ByteSlice;
use std::alloc::{AllocError, Global};

/// How many bytes there are from one stop to the next, at least.
const STRIDE: usize = 256;

/// The stops of all lines of a text.
#[tactic(auto, using(crate::proofs::LinesLemmas::joined_length))]
pub(crate) fn stops_of(alloc: Global, text: &[u8]) -> Result<Vec<Stop>, AllocError>
    ensures { IfOk result (λ stops. All (IsStopOf text.now) stops.items) }
{
    let mut stops = Vec::new(alloc);
    let mut start = 0;
    for line in text.lines_with_terminator() {
        add_stops(&mut stops, text, start, line.len())?;
        start += line.len();
    }
    Ok(stops)
}

/// Adds the stops of a line that begins there and is so long.
fn add_stops(
    stops: &mut Vec<Stop>,
    text: &[u8],
    start: usize,
    size: usize,
) -> Result<(), AllocError>
    requires stops { All (IsStopOf text.now) stops.old.items }
    requires there { start + size ≤ length text.now }
    ensures { OnOk result (All (IsStopOf text.now) stops.new.items) }
{
    let line = &text[start..];
    let mut stop = line_start(start);
    while size.saturating_sub(stop.before) > STRIDE {
        stop = next_stop(line, stop);
        stops.push(stop)?;
    }
    Ok(())
}

/// The stop behind this one of the line with which these bytes begin.
fn next_stop(line: &[u8], stop: Stop) -> Stop
    requires is { IsStop line.now stop }
    requires there { stop.before + 256 ≤ length line.now }
    ensures is { IsStop line.now result }
    ensures start { result.start ≡ stop.start }
    ensures behind { stop.before < result.before }
{
    let before = clean_from(line, stop.before + STRIDE);
    Stop {
        start: stop.start,
        before,
        column: stop.column + characters_in(&line[stop.before..before]),
    }
}

/// The first place from here on at which no character goes on, or the end.
fn clean_from(line: &[u8], from: usize) -> usize
    requires { from ≤ length line.now }
    ensures clean { is_clean (drop result line.now) ≡ true }
    ensures from { from ≤ result }
    ensures within { result ≤ length line.now }
{
    let mut left = &line[from..];
    while let [byte, behind @ ..] = left {
        if !continues(*byte) {
            return line.len() - left.len();
        }
        left = behind;
    }
    line.len()
}

/// Whether the byte can only go on with a character that began before it.
fn continues(byte: u8) -> bool
    ensures { result ≡ continues byte }
{
    matches!(byte, 0x80..=0xBF)
}
