//! A text laid out: each line stands in as far as brackets are open in front of it. Nothing but the blanks in front of lines is
//! changed, and no word goes over a line, so that the text reads as it did and has the same comments. One whose brackets are not
//! those of a group is left as it is.
ghost use Rattle.std.specs.Prelude.{◌≡◌, ◌≤◌, length, IfOk};
ghost use Rattle.std.specs.List.{prefix_len};
ghost use Rattle.mh_edit.specs.Layout.{LaidKeepsComments, LaidReadsAsBefore};
ghost use Rattle.mh_edit.specs.Layout as spec;

use crate::word::{Word, behind, words_of};
use mh_text::TokenKind;
use std::alloc::{AllocError, Global};

/// The spaces for a bracket that is open.
const BLANKS: usize = 4;

/// How many brackets count at most.
const DEEPEST: usize = 20;

/// A text that is laid out is read as before.
pub fn laid_texts_read_as_before()
    ensures { LaidReadsAsBefore }
{}

/// A text that is laid out has the same comments.
pub fn laid_texts_keep_comments()
    ensures { LaidKeepsComments }
{}

/// A change of the blanks in front of a line.
#[derive(Clone, Copy)]
pub struct Change {
    /// How many bytes stay behind the change before.
    pub kept: usize,
    /// How many blanks go.
    pub old: usize,
    /// How many spaces come.
    pub new: usize,
}

/// The changes that lay a text out: one for each line, also where nothing changes.
#[tactic(auto, unfolding(crate::specs::Layout::changes))]
pub fn changes_of(alloc: Global, bytes: &[u8]) -> Result<Vec<Change>, AllocError>
    ensures { IfOk result (λ found. found.items ≡ spec.changes bytes.now) }
{
    let words = words_of(alloc, bytes)?;
    if depth_behind(words.as_slice()) != 0 {
        return Ok(Vec::new(alloc));
    }
    line_changes(alloc, bytes, words.as_slice())
}

/// How many brackets are open behind all words.
fn depth_behind(words: &[Word]) -> usize
    ensures { result ≡ spec.depth_behind 0 words.now }
{
    let mut depth = 0;
    for word in words {
        depth = depth_by(depth, word.kind);
    }
    depth
}

fn depth_by(depth: usize, kind: TokenKind) -> usize
    ensures { result ≡ spec.depth_by depth kind }
{
    match kind {
        TokenKind::OpenBrace | TokenKind::OpenParenthesis => depth.saturating_add(1),
        TokenKind::CloseBrace | TokenKind::CloseParenthesis => depth.saturating_sub(1),
        _ => depth,
    }
}

fn line_changes(alloc: Global, bytes: &[u8], words: &[Word]) -> Result<Vec<Change>, AllocError>
    ensures { IfOk result (λ found. found.items ≡ spec.changes_from (length bytes.now) 0 0 (0, words.now) bytes.now) }
{
    let mut found = Vec::new(alloc);
    let mut rest = bytes;
    let mut start = 0usize;
    let mut kept = 0usize;
    let mut depth = 0usize;
    let mut left = words;
    for _ in 0..bytes.len() {
        if rest.is_empty() {
            return Ok(found);
        }
        let size = line_size(rest);
        let end = start.saturating_add(size);
        let change = change_at(rest, kept, depth_at(end, depth, left));
        found.push(change)?;
        let next = next_behind(end, depth, left);
        depth = next.depth;
        left = next.left;
        start = end.saturating_add(1);
        kept = size.saturating_sub(change.old) + 1;
        rest = behind(rest, size + 1);
    }
    Ok(found)
}

/// The change in front of a line that stands in so far.
fn change_at(line: &[u8], kept: usize, depth: usize) -> Change
    ensures { result ≡ spec.change_at line.now kept depth }
{
    let old = blanks_in(line);
    Change {
        kept,
        old,
        new: indent(depth, behind(line, old)),
    }
}

/// The words that are left behind a line, and how many brackets are open in front of them.
#[derive(Clone, Copy)]
struct Next<'a> {
    depth: usize,
    left: &'a [Word],
}

fn next_behind(end: usize, depth: usize, words: &[Word]) -> Next<'_>
    ensures { (result.depth, result.left.now) ≡ spec.next_behind end depth words.entry.now }
{
    let mut depth = depth;
    let mut left = words;
    while let Some((word, others)) = left.split_first() {
        if word.at.start >= end {
            return Next { depth, left };
        }
        depth = depth_by(depth, word.kind);
        left = others;
    }
    Next { depth, left }
}

/// How far the line stands in that ends there, in front of which so many brackets are open.
fn depth_at(end: usize, depth: usize, words: &[Word]) -> usize
    ensures { result ≡ spec.depth_at end depth words.now }
{
    match words.first() {
        Some(word) if word.at.start < end && is_closing(word.kind) => depth.saturating_sub(1),
        _ => depth,
    }
}

fn is_closing(kind: TokenKind) -> bool
    ensures { result ≡ spec.is_closing kind }
{
    matches!(kind, TokenKind::CloseBrace | TokenKind::CloseParenthesis)
}

/// The spaces in front of what is left of a line; none where nothing is.
fn indent(depth: usize, left: &[u8]) -> usize
    ensures { result ≡ spec.indent depth left.now }
{
    if is_end(left) {
        0
    } else {
        BLANKS * depth.min(DEEPEST)
    }
}

fn is_end(bytes: &[u8]) -> bool
    ensures { result ≡ spec.is_end bytes.now }
{
    match bytes.first() {
        Some(byte) => *byte == b'\n' || *byte == b'\r',
        None => true,
    }
}

#[tactic(auto, using(crate::proofs::LayoutLemmas::within))]
fn line_size(bytes: &[u8]) -> usize
    ensures is { result ≡ prefix_len spec.is_no_feed bytes.now }
    ensures within { result ≤ length bytes.now }
{
    bytes.iter().take_while(|byte| is_no_feed(**byte)).count()
}

fn blanks_in(bytes: &[u8]) -> usize
    ensures { result ≡ prefix_len spec.is_blank bytes.now }
{
    bytes.iter().take_while(|byte| is_blank(**byte)).count()
}

fn is_no_feed(byte: u8) -> bool
    ensures { result ≡ spec.is_no_feed byte }
{
    byte != b'\n'
}

fn is_blank(byte: u8) -> bool
    ensures { result ≡ spec.is_blank byte }
{
    byte == b' ' || byte == b'\t'
}
