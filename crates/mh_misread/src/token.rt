//! The token at the place where reading stopped.
ghost use Rattle.std.specs.Prelude.{◌≡◌};
ghost use Rattle.std.specs.Option.{option_map};
ghost use Rattle.mh_misread.specs.Misreads.{first_token, first_sign};

use crate::piece::{Sign, sign_of};
use mh_text::{Token, Tokens};

/// The token at the front of these bytes, if one begins there.
pub(crate) fn first_token(bytes: &[u8]) -> Option<Token<'_>>
    ensures { option_map (λ token. (token.kind, token.text.now)) result ≡ first_token bytes.now }
{
    match Tokens::new(bytes).next() {
        Ok(Some(token)) => Some(token),
        _ => None,
    }
}

/// What that token is.
pub(crate) fn first_sign(bytes: &[u8]) -> Option<Sign>
    ensures { result ≡ first_sign bytes.now }
{
    match first_token(bytes) {
        Some(token) => Some(sign_of(token.kind, token.text)),
        None => None,
    }
}
