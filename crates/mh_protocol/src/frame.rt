//! A message in its frame: a header says how long it is, and it stands right behind that.
ghost use Rattle.std.specs.Prelude.{◌≡◌, decimal, string_bytes, IfOk};
ghost use Rattle.mh_protocol.specs.Frames.{FramesReadBack};
ghost use Rattle.mh_protocol.specs.Frames as spec;

use crate::edit::joined;
use crate::head::{Head, head_in};
use serde_json::Value;
use std::alloc::{AllocError, Global};

/// The longest message that is read: 4 MiB.
const LARGEST_MESSAGE: usize = 4194304;

/// The most lines of a header.
const MOST_LINES: usize = 16;

/// What the header of a message begins with.
const LENGTH_NAME: &[u8] = b"Content-Length: ";

/// What it ends with: the end of its line, and an empty line.
const HEAD_END: &[u8] = b"\r\n\r\n";

/// A message in its frame is read as that message.
pub fn frames_read_back()
    ensures { FramesReadBack }
{}

/// The header of a message of so many bytes.
#[tactic(auto, unfolding(crate::specs::Frames::head_text))]
pub fn head_for(alloc: Global, length: usize) -> Result<Vec<u8>, AllocError>
    ensures { IfOk result (λ head. head.items ≡ spec.head_text length) }
{
    let digits = digits_of(alloc, length)?;
    joined(alloc, LENGTH_NAME, digits.as_bytes(), HEAD_END)
}

fn digits_of(alloc: Global, number: usize) -> Result<String, AllocError>
    ensures { IfOk result (λ digits. string_bytes digits ≡ decimal number) }
{
    Value::from(number as u64).to_string(alloc)
}

/// What stands at the front of what came.
#[derive(Clone, Copy)]
pub enum Frame {
    /// Not all of a message came yet.
    More,
    /// No header.
    Wrong,
    /// A message of so many bytes, behind so many of its header.
    Whole { start: usize, length: usize },
    /// The same, and it is longer than any that is read, whether all of it came or not.
    Large { start: usize, length: usize },
}

/// The message at the front.
#[tactic(auto, unfolding(crate::specs::Frames::frame_in))]
pub fn frame_in(bytes: &[u8]) -> Frame
    ensures { result ≡ spec.frame_in bytes.now }
{
    frame_behind(bytes.len(), head_in(MOST_LINES, bytes))
}

/// The message behind a header, where so many bytes came.
fn frame_behind(all: usize, head: Head) -> Frame
    ensures { result ≡ spec.frame_behind all head }
{
    match head {
        Head::More => Frame::More,
        Head::Wrong => Frame::Wrong,
        Head::Ends { left, length } => message_of(all.saturating_sub(left), left, length),
    }
}

/// A message of so many bytes, of which so many came behind so many of its header.
fn message_of(start: usize, left: usize, length: usize) -> Frame
    ensures { result ≡ spec.message_of start left length }
{
    if length > LARGEST_MESSAGE {
        Frame::Large { start, length }
    } else if left < length {
        Frame::More
    } else {
        Frame::Whole { start, length }
    }
}
