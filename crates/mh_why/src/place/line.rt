//! `Line`: the line of a text in which a place is, with what is counted and shown of it.
ghost use Rattle.std.specs.Prelude.{◌≡◌, ◌≤◌, ◌<◌, ◌^◌, ℕ, List, IfOk, drop, length, map, take};
ghost use Rattle.bstr.specs.Text.{without_terminator};
ghost use Rattle.bstr.specs.Utf8.{lossy_chars};
ghost use Rattle.mh_why.specs.Lines.{IsStop};
ghost use Rattle.mh_why.specs.Places.{characters_of, column, meant, spaced};

use crate::place::stop::Stop;
use crate::place::{characters_in, spaced, without_terminator};
use bstr::ByteSlice;
use std::alloc::{AllocError, Global};
use std::marker::Model;

/// A line and a place in it.
#[derive(Drop)]
pub(crate) struct Line<'a> {
    /// From 1 on.
    pub(crate) number: u64,
    pub(crate) bytes: &'a [u8],
    /// How many bytes of the line stand before the place.
    pub(crate) before: usize,
    /// One before the place.
    pub(crate) stop: Stop,
}

impl<'a> Model for Line<'a> {
    ghost use Rattle.std.specs.Prelude.{◌≤◌, length};
    ghost use Rattle.mh_why.specs.Lines.{IsStop};
    ghost use Rattle.mh_why.specs.Places.{Line};

    ghost Value = { Line };

    ghost view = { λ l. record { number = l.number; bytes = l.bytes.now; before = l.before } };

    ghost invariant = { λ l. IsStop l.bytes.now l.stop × (l.stop.before ≤ l.before) × (l.before ≤ length l.bytes.now) };
}

impl<'a> Line<'a> {
    /// How many characters stand before the place.
    pub(crate) fn column(&self) -> usize
        ensures exact { result ≡ column self.now }
        ensures fits { result < 2 ^ 63 }
    {
        self.stop.column + characters_in(&self.bytes[self.stop.before..self.before])
    }

    /// So many characters of the line at most, behind so many others, as they are shown.
    pub(crate) fn characters_behind(
        &self,
        alloc: Global,
        left_out: usize,
        most: usize,
    ) -> Result<Vec<u32>, AllocError>
        ensures { IfOk result (λ characters. characters.items ≡ take most (drop left_out (characters_of self.now.bytes))) }
    {
        let shown = without_terminator(self.bytes);
        let stop = stop_for(shown, self.stop, left_out);
        let behind = &shown[stop.before..];
        spaced_characters(alloc, behind, left_out - stop.column, most)
    }

    /// How many characters so many bytes of the line are, behind the place and up to the line's end.
    pub(crate) fn characters_meant(&self, size: usize) -> usize
        ensures { result ≡ meant self.now size }
    {
        let shown = without_terminator(self.bytes);
        let behind = shown.get(self.before..).unwrap_or(&[]);
        characters_in(behind.get(..size).unwrap_or(behind))
    }
}

/// The stop, or the line's beginning where that is behind these bytes of the line or behind so many characters.
fn stop_for(shown: &[u8], stop: Stop, left_out: usize) -> Stop
    requires { stop.before ≤ length shown.now → IsStop shown.now stop }
    ensures is { IsStop shown.now result }
    ensures before { result.column ≤ left_out }
{
    if stop.column <= left_out && stop.before <= shown.len() {
        return stop;
    }
    line_start(stop.start)
}

/// The stop at the beginning of a line, whatever its bytes are.
#[tactic(auto, using(crate::proofs::StopLemmas::start_stop))]
pub(crate) fn line_start(start: usize) -> Stop
    ensures is { (line : List ℕ) → IsStop line result }
    ensures start { result.start ≡ start }
    ensures before { result.before ≡ 0 }
    ensures column { result.column ≡ 0 }
{
    Stop {
        start,
        before: 0,
        column: 0,
    }
}

/// So many characters at most, behind so many others, as they are shown.
fn spaced_characters(
    alloc: Global,
    bytes: &[u8],
    left_out: usize,
    most: usize,
) -> Result<Vec<u32>, AllocError>
    ensures { IfOk result (λ characters. characters.items ≡ take most (drop left_out (map spaced (lossy_chars bytes.now)))) }
{
    let mut characters = Vec::new(alloc);
    let mut before = left_out;
    let mut left = most;
    for character in bytes.chars() {
        if before > 0 {
            before -= 1;
        } else if left == 0 {
            return Ok(characters);
        } else {
            characters.push(spaced(character as u32))?;
            left -= 1;
        }
    }
    Ok(characters)
}
