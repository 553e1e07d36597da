//! `Sought`: which actions can be meant where a fault names an action and an object.
ghost use Rattle.std.specs.Prelude.{◌≡◌, ℕ, List, MatchResult, drop};
ghost use Rattle.mh_base.specs.Reading.{whole};
ghost use Rattle.mh_text.specs.Left.{lexed};
ghost use Rattle.mh_why.specs.Meant.{depth_behind, ends_action, is_mention, is_some, mention, mention_in, mentioned, mentions};

use mh_text::{TokenKind, Tokens};
use std::marker::Model;

/// The name of an action, and the number of an object, as words.
#[derive(Drop)]
pub(crate) struct Sought<'a> {
    pub(crate) action: &'a [u8],
    pub(crate) number: &'a [u8],
}

impl<'a> Model for Sought<'a> {
    ghost use Rattle.mh_why.specs.Meant.{Sought};

    ghost Value = { Sought };

    ghost view = { λ s. record { action = s.action.now; number = s.number.now } };
}

/// Whether the action with which these bytes begin can be meant: the number is written in it, or it goes through a
/// variable.
pub(crate) fn mentions(number: &[u8], bytes: &[u8]) -> bool
    ensures { result ≡ mentions number.now bytes.now }
{
    is_some(mention(number, bytes))
}

fn is_some(bytes: &[u8]) -> bool
    ensures { result ≡ is_some bytes.now }
{
    match bytes {
        [] => false,
        _ => true,
    }
}

/// The bytes from the first mention on in the action with which these begin; none where there is none. What goes through a
/// variable is one.
#[tactic(auto, unfolding(crate::specs::Meant::mention))]
fn mention<'a>(number: &[u8], bytes: &'a [u8]) -> &'a [u8]
    ensures { result.now ≡ mention number.now bytes.now }
{
    let mut depth = 0;
    let mut left = bytes;
    // A text has no more tokens than bytes.
    for _ in 0..bytes.len() {
        match mention_or_rest(number, depth, left) {
            Ok(found) => return found,
            Err((behind, rest)) => {
                depth = behind;
                left = rest;
            }
        }
    }
    &[]
}

/// The bytes from a mention on, or none, where that is known by the first of the tokens that are left; else how many
/// brackets are open behind it, and what is left there.
fn mention_or_rest<'a>(
    number: &[u8],
    depth: usize,
    bytes: &'a [u8],
) -> Result<&'a [u8], (usize, &'a [u8])>
    ensures { (further : ℕ → List ℕ → List ℕ) → MatchResult result
        (λ found. mention_in further number.now depth bytes.now (lexed (whole bytes.now)) ≡ found.now)
        (λ left. mention_in further number.now depth bytes.now (lexed (whole bytes.now)) ≡ further left.0 left.1.now) }
{
    match Tokens::new(bytes).next() {
        Ok(Some(token)) => {
            let here = bytes_from(bytes, token.start);
            mentioned(number, depth, token.kind, token.text, here)
        }
        _ => Ok(&[]),
    }
}

/// The bytes from this place on; none where there are not so many.
pub(crate) fn bytes_from(bytes: &[u8], start: usize) -> &[u8]
    ensures { result.now ≡ drop start bytes.now }
{
    bytes.get(start..).unwrap_or(&[])
}

/// The same, where this token stands at the front.
fn mentioned<'a>(
    number: &[u8],
    depth: usize,
    kind: TokenKind,
    text: &[u8],
    bytes: &'a [u8],
) -> Result<&'a [u8], (usize, &'a [u8])>
    ensures { (further : ℕ → List ℕ → List ℕ) → MatchResult result
        (λ found. mentioned further number.now depth kind text.now bytes.now ≡ found.now)
        (λ left. mentioned further number.now depth kind text.now bytes.now ≡ further left.0 left.1.now) }
{
    if is_mention(number, kind, text) {
        return Ok(bytes);
    }
    if ends_action(depth, kind) {
        return Ok(&[]);
    }
    Err((
        depth_behind(depth, kind),
        bytes.get(text.len()..).unwrap_or(&[]),
    ))
}

/// Whether the token is the number, or stands in front of a variable.
fn is_mention(number: &[u8], kind: TokenKind, text: &[u8]) -> bool
    ensures { result ≡ is_mention number.now kind text.now }
{
    match kind {
        TokenKind::Integer => text == number,
        TokenKind::Keyword => text == b":IndirectRef".as_slice(),
        _ => false,
    }
}

/// Whether the token closes the bracket of the action, where so many are open.
pub(crate) fn ends_action(depth: usize, kind: TokenKind) -> bool
    ensures { result ≡ ends_action depth kind }
{
    match kind {
        TokenKind::CloseParenthesis => depth <= 1,
        _ => false,
    }
}

/// How many brackets are open behind the token. No action has as many as are counted.
pub(crate) fn depth_behind(depth: usize, kind: TokenKind) -> usize
    ensures { result ≡ depth_behind depth kind }
{
    match kind {
        TokenKind::OpenParenthesis if depth < 9 => depth + 1,
        TokenKind::CloseParenthesis => depth.saturating_sub(1),
        _ => depth,
    }
}
