//! `Word`: a token of a text, by where it stands.
ghost use Rattle.std.specs.Prelude.{◌≡◌, drop, length, option_map, take, IfOk};
ghost use Rattle.mh_text.specs.Left.{lexed};
ghost use Rattle.mh_edit.specs.Words as spec;

use mh_text::{TokenKind, Tokens};
use std::alloc::{AllocError, Global};

/// So many bytes of a text.
#[derive(Clone, Copy, PartialEq, Eq)]
pub struct Extent {
    pub start: usize,
    pub length: usize,
}

/// A token.
#[derive(Clone, Copy)]
pub struct Word {
    pub kind: TokenKind,
    pub at: Extent,
}

/// The tokens of a text, up to where none begins.
#[tactic(auto, unfolding(crate::specs::Words::words))]
pub fn words_of(alloc: Global, bytes: &[u8]) -> Result<Vec<Word>, AllocError>
    ensures { IfOk result (λ found. found.items ≡ spec.words bytes.now) }
{
    let mut found = Vec::new(alloc);
    let mut tokens = Tokens::new(bytes);
    for _ in 0..bytes.len() {
        let Some(word) = next_word(&mut tokens) else {
            return Ok(found);
        };
        found.push(word)?;
    }
    Ok(found)
}

/// Takes the next token.
#[tactic(auto, using(crate::proofs::WordLemmas::none_at_bad))]
fn next_word(tokens: &mut Tokens<'_>) -> Option<Word>
    ensures { option_map (λ w. (w, tokens.new)) result ≡ spec.first_word tokens.old }
{
    match tokens.next() {
        Ok(Some(token)) => Some(Word {
            kind: token.kind,
            at: Extent {
                start: token.start,
                length: token.text.len(),
            },
        }),
        _ => None,
    }
}

/// What stands there.
pub fn text_of(bytes: &[u8], at: Extent) -> &[u8]
    ensures { result.now ≡ spec.text_of bytes.now at }
{
    front_of(behind(bytes, at.start), at.length)
}

pub(crate) fn front_of(bytes: &[u8], size: usize) -> &[u8]
    ensures { result.now ≡ take size bytes.now }
{
    bytes.get(..size).unwrap_or(bytes)
}

pub(crate) fn behind(bytes: &[u8], size: usize) -> &[u8]
    ensures { result.now ≡ drop size bytes.now }
{
    bytes.get(size..).unwrap_or(&[])
}
