//! `Piece`: a token of a text, with what it means. Which token may stand where is left to `goal`.
ghost use Rattle.std.specs.Prelude.{◌≡◌, IfOk, List};
ghost use Rattle.mh_base.specs.Reading.{Rest};
ghost use Rattle.mh_text.specs.Left.{lexed};
ghost use Rattle.mh_misread.specs.Pieces.{sign_of, named, before_in, pieces_before, with_piece};

use crate::name::{Name, keyword_named, word_named};
use mh_text::{TokenKind, Tokens};
use std::alloc::{AllocError, Global};

/// What a token is.
#[derive(Clone, Copy)]
pub enum Sign {
    OpenBrace,
    CloseBrace,
    Open,
    Close,
    /// A keyword or a word that a table has.
    Name(Name),
    Integer,
    /// A string, of either mark.
    String,
    /// A keyword or a word that no table has.
    Unknown,
}

/// A token.
#[derive(Clone, Copy)]
pub struct Piece {
    pub sign: Sign,
    /// How many bytes stand in front of it.
    pub start: usize,
}

/// The tokens of a text that begin before the offset, up to the first that is wrong.
#[tactic(auto, unfolding(crate::specs::Pieces::pieces_before))]
pub(crate) fn pieces_before(
    alloc: Global,
    file: &[u8],
    offset: usize,
) -> Result<Vec<Piece>, AllocError>
    ensures { IfOk result (λ found. found.items ≡ pieces_before file.now offset) }
{
    let mut found = Vec::new(alloc);
    let mut tokens = Tokens::new(file);
    // A text has no more tokens than bytes.
    for _ in 0..file.len() {
        match piece_before(&mut tokens, offset) {
            Some(piece) => found.push(piece)?,
            None => return Ok(found),
        }
    }
    Ok(found)
}

/// The next token, if it begins before the offset.
fn piece_before(tokens: &mut Tokens<'_>, offset: usize) -> Option<Piece>
    ensures { (behind : Rest → List Piece) → before_in behind offset (lexed tokens.old) ≡ with_piece result (behind tokens.new) }
{
    match tokens.next() {
        Ok(Some(token)) if token.start < offset => {
            Some(Piece {
                sign: sign_of(token.kind, token.text),
                start: token.start,
            })
        }
        _ => None,
    }
}

/// What a token of this kind and these bytes is.
#[tactic(auto, unfolding(crate::specs::Pieces::sign_of))]
pub(crate) fn sign_of(kind: TokenKind, text: &[u8]) -> Sign
    ensures { result ≡ sign_of kind text.now }
{
    match kind {
        TokenKind::OpenBrace => Sign::OpenBrace,
        TokenKind::CloseBrace => Sign::CloseBrace,
        TokenKind::OpenParenthesis => Sign::Open,
        TokenKind::CloseParenthesis => Sign::Close,
        TokenKind::Keyword => named(keyword_named(text.get(1..).unwrap_or(&[]))),
        TokenKind::Word => named(word_named(text)),
        TokenKind::Integer => Sign::Integer,
        TokenKind::Text | TokenKind::Quoted => Sign::String,
    }
}

fn named(name: Option<Name>) -> Sign
    ensures { result ≡ named name }
{
    match name {
        Some(name) => Sign::Name(name),
        None => Sign::Unknown,
    }
}
