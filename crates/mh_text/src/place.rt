//! `Place`: where reading stands in a text. It gives the next token with its meaning, or the first
//! thing that is wrong there; what is wanted is left to the readers. They are lent the place and go on
//! in it; where one answers an error, the place is of no further use, and nothing is said of it.
ghost use Rattle.std.specs.Prelude.{◌≡◌, false, length, Some, option_map};
ghost use Rattle.mh_base.specs.Reading.{whole, refused};
ghost use Rattle.mh_text.specs.Rest.{Left};
ghost use Rattle.mh_text.specs.Left.{left, meant};
ghost use Rattle.mh_text.specs.Signs.{sign_of};
ghost use Rattle.mh_text.specs.Gives.{Gives, Fails};
ghost use Rattle.mh_text.specs.Words.{needs_gap};
ghost use Rattle.mh_text.specs.Reading.{taken, next, opened, closed, closed_list, braced, ended, inner};

use crate::sign::{Sign, sign_of};
use crate::{TextError, Token, TokenKind, Tokens, Why};
use std::marker::Model;

/// A token with its meaning.
#[derive(Drop)]
pub(crate) struct Piece<'a> {
    sign: Sign,
    start: usize,
    text: &'a [u8],
}

impl<'a> Model for Piece<'a> {
    ghost use Rattle.mh_text.specs.Rest.{Piece};

    ghost Value = { Piece };

    ghost view = { λ p. record { sign = p.sign; start = p.start; text = p.text.now } };
}

impl<'a> Piece<'a> {
    pub(crate) fn sign(&self) -> Sign
        ensures { result ≡ self.now.sign }
    {
        self.sign
    }

    /// Where it begins.
    pub(crate) fn start(&self) -> usize
        ensures { result ≡ self.now.start }
    {
        self.start
    }

    /// How many bytes it has.
    pub(crate) fn length(&self) -> usize
        ensures { result ≡ length self.now.text }
    {
        self.text.len()
    }

    /// The refusal that names this token.
    pub(crate) fn refused(&self, why: Why) -> TextError
        ensures { result ≡ TextError.At why self.now.start }
    {
        TextError::At {
            why,
            offset: self.start,
        }
    }

    /// The bytes between the marks of a string.
    pub(crate) fn inner(&self) -> &'a [u8]
        ensures { result.now ≡ inner self.now.text }
    {
        match self.text {
            [_, inner @ .., _] => inner,
            _ => &[],
        }
    }
}

/// Where reading stands: the tokens that are left, and whether white space has to come before a
/// further keyword, word or integer. A contract sees the tokens that are left.
#[derive(Drop)]
pub(crate) struct Place<'a> {
    tokens: Tokens<'a>,
    is_tight: bool,
}

impl<'a> Model for Place<'a> {
    ghost use Rattle.mh_text.specs.Rest.{Left};
    ghost use Rattle.mh_text.specs.Left.{left};

    ghost Value = { Left };

    ghost view = { λ p. left p.is_tight p.tokens };
}

impl<'a> Place<'a> {
    pub(crate) fn new(bytes: &'a [u8]) -> Place<'a>
        ensures { result ≡ left false (whole bytes.now) }
    {
        Place {
            tokens: Tokens::new(bytes),
            is_tight: false,
        }
    }

    /// Takes the next token; none at the end.
    pub(crate) fn taken(&mut self) -> Result<Option<Piece<'a>>, TextError>
        ensures { Gives (option_map (λ p. (p, self.new))) result (taken self.old) }
    {
        let offset = self.tokens.offset();
        let Some(token) = self.tokens.next()? else {
            return Ok(None);
        };
        let piece = meant(self.is_tight, offset, token)?;
        self.is_tight = needs_gap(token.kind);
        Ok(Some(piece))
    }

    /// Takes the next token.
    pub(crate) fn next(&mut self) -> Result<Piece<'a>, TextError>
        ensures { Gives (λ p. (p, self.new)) result (next self.old) }
    {
        let end = self.tokens.end();
        match self.taken()? {
            Some(piece) => Ok(piece),
            None => Err(TextError::At {
                why: Why::Syntax,
                offset: end,
            }),
        }
    }

    /// Takes an opening parenthesis, which is wanted here.
    #[tactic(auto, unfolding(crate::specs::Reading::opened))]
    pub(crate) fn opened(&mut self) -> Result<(), TextError>
        ensures { Gives (λ _. self.new) result (opened self.old) }
    {
        let piece = self.next()?;
        if piece.sign.is_open() {
            Ok(())
        } else {
            Err(piece.refused(Why::Syntax))
        }
    }

    /// Takes a closing parenthesis, which is wanted here.
    #[tactic(auto, unfolding(crate::specs::Reading::closed))]
    pub(crate) fn closed(&mut self) -> Result<(), TextError>
        ensures { Gives (λ _. self.new) result (closed self.old) }
    {
        let piece = self.next()?;
        if piece.sign.is_close() {
            Ok(())
        } else {
            Err(piece.refused(Why::Syntax))
        }
    }

    /// Takes the closing parenthesis of a list that can take no more members.
    #[tactic(auto, unfolding(crate::specs::Reading::closed_list))]
    pub(crate) fn closed_list(&mut self) -> Result<(), TextError>
        ensures { Gives (λ _. self.new) result (closed_list self.old) }
    {
        let piece = self.next()?;
        if piece.sign.is_close() {
            Ok(())
        } else {
            Err(piece.refused(Why::Limit))
        }
    }

    /// Takes an opening brace, which is wanted here.
    #[tactic(auto, unfolding(crate::specs::Reading::braced))]
    pub(crate) fn braced(&mut self) -> Result<(), TextError>
        ensures { Gives (λ _. self.new) result (braced self.old) }
    {
        let piece = self.next()?;
        if piece.sign.is_open_brace() {
            Ok(())
        } else {
            Err(piece.refused(Why::Syntax))
        }
    }

    /// Nothing but white space is left, which is wanted here.
    pub(crate) fn ended(&mut self) -> Result<(), TextError>
        ensures { Gives (λ x. x) result (ended self.old) }
    {
        match self.taken()? {
            Some(piece) => Err(piece.refused(Why::Syntax)),
            None => Ok(()),
        }
    }
}

/// The token with its meaning, whatever is left behind it. It stood in what was left from the offset on.
fn meant<'a>(is_tight: bool, offset: usize, token: Token<'a>) -> Result<Piece<'a>, TextError>
    ensures { (behind : Left) → Gives (λ p. Some (p, behind)) result (taken (meant is_tight offset token.entry.kind token.entry.start token.entry.text.now
        (sign_of token.entry.kind token.entry.text.now) behind)) }
{
    let start = token.start;
    let sign = match sign_of(token.kind, token.text) {
        Ok(sign) => sign,
        Err(why) => return Err(TextError::At { why, offset: start }),
    };
    if is_tight && needs_gap(token.kind) && start == offset {
        return Err(TextError::At {
            why: Why::Syntax,
            offset: start,
        });
    }
    Ok(Piece {
        sign,
        start,
        text: token.text,
    })
}

/// Whether white space has to stand between two tokens of such kinds.
fn needs_gap(kind: TokenKind) -> bool
    ensures { result ≡ needs_gap kind }
{
    matches!(
        kind,
        TokenKind::Keyword | TokenKind::Word | TokenKind::Integer
    )
}
