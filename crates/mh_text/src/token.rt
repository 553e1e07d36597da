//! `Tokens`: the tokens of a text, each the slice at its span, in order. Between two of them stands
//! nothing but white space and comments. What a token means is left to `sign`.

pub mod kind;

ghost use Rattle.std.specs.Prelude.{◌≡◌, ◌+◌, length, MatchResult, MatchOption};
ghost use Rattle.mh_base.specs.Reading.{whole};
ghost use Rattle.mh_text.specs.Left.{lexed, finished, token, IsBad};

use crate::{TextError, TokenKind, Why, lexing};
use std::marker::Model;

/// A token: what it is, where it begins, and its bytes.
#[derive(Clone, Copy)]
pub struct Token<'a> {
    pub kind: TokenKind,
    pub start: usize,
    pub text: &'a [u8],
}

/// The tokens of a text, from the first that was not taken. A contract sees the bytes that are left,
/// and how many stand before them.
#[derive(Drop)]
pub struct Tokens<'a> {
    rest: &'a [u8],
    offset: usize,
}

impl<'a> Model for Tokens<'a> {
    ghost use Rattle.std.specs.Prelude.{◌+◌, ◌<◌, ◌^◌, length};
    ghost use Rattle.mh_base.specs.Reading.{Rest};

    ghost Value = { Rest };

    ghost view = { λ t. record { offset = t.offset; bytes = t.rest.now } };

    ghost invariant = { λ t. t.offset + length t.rest.now < 2 ^ 64 };
}

impl<'a> Tokens<'a> {
    pub fn new(bytes: &'a [u8]) -> Tokens<'a>
        ensures { result ≡ whole bytes.now }
    {
        Tokens {
            rest: bytes,
            offset: 0,
        }
    }

    /// How many bytes stand before what is left.
    pub fn offset(&self) -> usize
        ensures { result ≡ self.now.offset }
    {
        self.offset
    }

    /// The length of the whole text.
    pub fn end(&self) -> usize
        ensures { result ≡ self.now.offset + length self.now.bytes }
    {
        self.offset + self.rest.len()
    }

    /// Takes the next token; none where only white space and comments are left. Where no token begins
    /// behind them, nothing is taken.
    #[tactic(auto, unfolding(crate::specs::Left::lexed))]
    pub fn next(&mut self) -> Result<Option<Token<'a>>, TextError>
        ensures { MatchResult result
            (λ taken. MatchOption taken
            ((lexed self.old ≡ finished) × (self.new ≡ self.old))
            (λ t. lexed self.old ≡ token t.kind t.start t.text.now self.new))
            (λ e. IsBad e (lexed self.old) × (self.new ≡ self.old)) }
    {
        let gap = lexing::gap_length(self.rest);
        let start = self.offset + gap;
        let front = &self.rest[gap..];
        if front.is_empty() {
            return Ok(None);
        }
        let Some((kind, length)) = lexing::token_at(front) else {
            return Err(TextError::At {
                why: Why::Lexical,
                offset: start,
            });
        };
        let (text, rest) = front.split_at(length);
        self.rest = rest;
        self.offset = start + length;
        Ok(Some(Token { kind, start, text }))
    }
}
