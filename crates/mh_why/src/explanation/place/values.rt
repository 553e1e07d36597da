//! Where the values of an action stand in a text, or the members of a list of them.
ghost use Rattle.std.specs.Prelude.{◌≡◌, ◌-◌, ℕ, List, MatchResult, drop, length};
ghost use Rattle.mh_base.specs.Reading.{whole};
ghost use Rattle.mh_text.specs.Left.{lexed};
ghost use Rattle.mh_why.specs.Values.{begins, behind, behind_at, behind_in, detail_in, ends_value, first_walk, is_sought, joins, value, value_at, value_in, value_size, walk_behind};
ghost use Rattle.mh_why.specs.declared.explanation.place.values.Walk.{Walk as WalkLem};

use crate::explanation::meant::{bytes_from, depth_behind, ends_action};
use mh_cause::Detail;
use mh_text::{TokenKind, Tokens};

/// How far the search for a value of a list has come: how many values are passed over before it, how many brackets are
/// open, and whether the token in front is a keyword, which belongs to the value behind it.
#[derive(Clone, Copy)]
pub(crate) struct Walk {
    pub(crate) count: usize,
    pub(crate) depth: usize,
    pub(crate) is_joined: bool,
}

/// The bytes from this part on of the action, or of the list of members, with which these begin; none where it is not found.
pub fn detail_in(detail: Detail, bytes: &[u8]) -> &[u8]
    ensures { result.now ≡ detail_in detail bytes.now }
{
    match detail {
        Detail::Unknown => &[],
        Detail::Value(number) => value(number, bytes),
        Detail::Within(number, inner) => value(inner, value(number, bytes)),
    }
}

/// The bytes from the value with this number on, of the list that the first bracket of these opens; none where there is none.
#[tactic(auto, unfolding(crate::specs::Values::value))]
fn value(number: usize, bytes: &[u8]) -> &[u8]
    ensures { result.now ≡ value number bytes.now }
{
    let mut walk = first_walk(number);
    let mut left = bytes;
    // A text has no more tokens than bytes.
    for _ in 0..bytes.len() {
        match value_or_rest(walk, left) {
            Ok(found) => return found,
            Err((next, rest)) => {
                walk = next;
                left = rest;
            }
        }
    }
    &[]
}

fn first_walk(number: usize) -> Walk
    ensures { result ≡ first_walk number }
{
    Walk {
        count: number,
        depth: 0,
        is_joined: false,
    }
}

/// The bytes from the value on, or none, where that is known by the first of the tokens that are left; else how far the
/// search has come behind it, and what is left there.
fn value_or_rest(walk: Walk, bytes: &[u8]) -> Result<&[u8], (Walk, &[u8])>
    ensures { (further : WalkLem → List ℕ → List ℕ) → MatchResult result
        (λ found. value_in further walk bytes.now (lexed (whole bytes.now)) ≡ found.now)
        (λ left. value_in further walk bytes.now (lexed (whole bytes.now)) ≡ further left.0 left.1.now) }
{
    match Tokens::new(bytes).next() {
        Ok(Some(token)) => {
            let here = bytes_from(bytes, token.start);
            value_at(walk, token.kind, token.text, here)
        }
        _ => Ok(&[]),
    }
}

/// The same, where this token stands at the front.
fn value_at<'a>(
    walk: Walk,
    kind: TokenKind,
    text: &[u8],
    bytes: &'a [u8],
) -> Result<&'a [u8], (Walk, &'a [u8])>
    ensures { (further : WalkLem → List ℕ → List ℕ) → MatchResult result
        (λ found. value_at further walk kind text.now bytes.now ≡ found.now)
        (λ left. value_at further walk kind text.now bytes.now ≡ further left.0 left.1.now) }
{
    if is_sought(walk, kind) {
        return Ok(bytes);
    }
    if ends_action(walk.depth, kind) {
        return Ok(&[]);
    }
    Err((walk_behind(walk, kind), bytes_from(bytes, text.len())))
}

fn is_sought(walk: Walk, kind: TokenKind) -> bool
    ensures { result ≡ is_sought walk kind }
{
    begins(walk, kind) && walk.count == 0
}

/// Whether a value of the list begins with the token.
fn begins(walk: Walk, kind: TokenKind) -> bool
    ensures { result ≡ begins walk kind }
{
    match kind {
        TokenKind::CloseParenthesis => false,
        _ => walk.depth == 1 && !walk.is_joined,
    }
}

/// Whether the token belongs to the value behind it.
fn joins(kind: TokenKind) -> bool
    ensures { result ≡ joins kind }
{
    matches!(kind, TokenKind::Keyword)
}

fn walk_behind(walk: Walk, kind: TokenKind) -> Walk
    ensures { result ≡ walk_behind walk kind }
{
    let passed = if begins(walk, kind) { 1 } else { 0 };
    Walk {
        count: walk.count.saturating_sub(passed),
        depth: depth_behind(walk.depth, kind),
        is_joined: joins(kind),
    }
}

/// How many bytes the value has that these begin with.
pub fn value_size(bytes: &[u8]) -> usize
    ensures { result ≡ value_size bytes.now }
{
    bytes.len().saturating_sub(behind(bytes).len())
}

/// The bytes behind the value that these begin with; none where it does not end.
#[tactic(auto, unfolding(crate::specs::Values::behind))]
fn behind(bytes: &[u8]) -> &[u8]
    ensures { result.now ≡ behind bytes.now }
{
    let mut depth = 0;
    let mut left = bytes;
    // A text has no more tokens than bytes.
    for _ in 0..bytes.len() {
        match behind_or_rest(depth, left) {
            Ok(found) => return found,
            Err((next, rest)) => {
                depth = next;
                left = rest;
            }
        }
    }
    &[]
}

/// The bytes behind the value, where that is known by the first of the tokens that are left; else how many brackets are open
/// behind it, and what is left there.
fn behind_or_rest(depth: usize, bytes: &[u8]) -> Result<&[u8], (usize, &[u8])>
    ensures { (further : ℕ → List ℕ → List ℕ) → MatchResult result
        (λ found. behind_in further depth bytes.now (lexed (whole bytes.now)) ≡ found.now)
        (λ left. behind_in further depth bytes.now (lexed (whole bytes.now)) ≡ further left.0 left.1.now) }
{
    match Tokens::new(bytes).next() {
        Ok(Some(token)) => {
            let here = bytes_from(bytes, token.start);
            behind_at(depth, token.kind, token.text, here)
        }
        _ => Ok(&[]),
    }
}

/// The same, where this token stands at the front.
fn behind_at<'a>(
    depth: usize,
    kind: TokenKind,
    text: &[u8],
    bytes: &'a [u8],
) -> Result<&'a [u8], (usize, &'a [u8])>
    ensures { (further : ℕ → List ℕ → List ℕ) → MatchResult result
        (λ found. behind_at further depth kind text.now bytes.now ≡ found.now)
        (λ left. behind_at further depth kind text.now bytes.now ≡ further left.0 left.1.now) }
{
    let rest = bytes_from(bytes, text.len());
    if ends_value(depth, kind) {
        return Ok(rest);
    }
    Err((depth_behind(depth, kind), rest))
}

/// Whether the token is the last of the value, where so many brackets of it are open.
fn ends_value(depth: usize, kind: TokenKind) -> bool
    ensures { result ≡ ends_value depth kind }
{
    match kind {
        TokenKind::OpenParenthesis | TokenKind::Keyword => false,
        TokenKind::CloseParenthesis => depth <= 1,
        _ => depth == 0,
    }
}
