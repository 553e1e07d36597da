//! The blocks of a file: a head, and the bytes that the lines under it write.
use crate::fault::Fault;
use crate::written::{put_line, put_octets};
use std::alloc::Global;

/// A head and what stands under it.
#[derive(Drop)]
pub struct Block<'a> {
    /// The number of the head's line, counted from 1.
    pub line: usize,
    /// The first word of the head, and the rest of it.
    pub word: &'a str,
    pub rest: &'a str,
    /// What the lines under the head write.
    pub bytes: Vec<u8>,
    /// Whether there are any.
    pub has_lines: bool,
}

impl Block<'_> {
    /// Whether the lines under the head are hexadecimal.
    fn is_octets(&self) -> bool {
        self.word == "octets" || (self.word == "want" && self.rest.ends_with(" octets"))
    }
}

/// What the line before leaves to the next one.
#[derive(Clone, Copy)]
enum Before {
    /// No block is open.
    Closed,
    /// A block is open.
    Open,
    /// One is, and its last line ended in a backslash.
    Joined,
}

/// The blocks of a text, in order.
pub fn blocks_of<'a>(alloc: Global, text: &'a str) -> Result<Vec<Block<'a>>, Fault> {
    let mut blocks = Vec::new(alloc);
    let mut before = Before::Closed;
    let mut at: usize = 0;
    for line in text.split('\n') {
        at = at.saturating_add(1);
        before = match line.strip_prefix("  ") {
            Some(content) => add_line(alloc, &mut blocks, content, before, at)?,
            None => begin(alloc, &mut blocks, line, at)?,
        };
    }
    Ok(blocks)
}

/// Begins a block, unless the line is empty or a comment.
fn begin<'a>(
    alloc: Global,
    blocks: &mut Vec<Block<'a>>,
    line: &'a str,
    at: usize,
) -> Result<Before, Fault> {
    if line.is_empty() || line.starts_with('#') {
        return Ok(Before::Closed);
    }
    let (word, rest) = line.split_once(' ').unwrap_or((line, ""));
    blocks.push(Block {
        line: at,
        word,
        rest,
        bytes: Vec::new(alloc),
        has_lines: false,
    })?;
    Ok(Before::Open)
}

/// Adds what a line writes to the last block.
fn add_line(
    alloc: Global,
    blocks: &mut Vec<Block<'_>>,
    content: &str,
    before: Before,
    at: usize,
) -> Result<Before, Fault> {
    let content = match before {
        Before::Closed => return Err(Fault::Line(at, "this line stands under no head")),
        Before::Open => content,
        Before::Joined => content.trim_start_matches(' '),
    };
    let Some(block) = blocks.last_mut() else {
        return Err(Fault::Line(at, "this line stands under no head"));
    };
    block.has_lines = true;
    if block.is_octets() {
        for word in content.split_whitespace() {
            put_octets(alloc, &mut block.bytes, word, at)?;
        }
        return Ok(Before::Open);
    }
    if put_line(alloc, &mut block.bytes, content, at)? {
        return Ok(Before::Joined);
    }
    Ok(Before::Open)
}
