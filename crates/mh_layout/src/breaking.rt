//! Where the first line of a text ends, and where the next begins.
ghost use Rattle.std.specs.Prelude.{◌≡◌, ◌<◌, ◌==◌, ◌&&◌, nat_lt, true, false};
ghost use Rattle.std.specs.Option.{option_copied, option_map};
ghost use Rattle.mh_model.specs.Scalars.{scalars_of};
ghost use Rattle.mh_layout.specs.Left.{IsHead, broken_length, broken_rest};

use crate::scalars::{RETURN, first_of};
use mh_model::Form;

/// The scalar at which a line may be broken.
const SPACE: u32 = 0x20;

/// The first line of a text: how many scalars it has, and what is left behind it, if anything is.
#[derive(Clone, Copy)]
pub struct Head<'a> {
    pub length: usize,
    pub rest: Option<&'a [u8]>,
}

/// The first line of a text of these scalars.
pub fn first_line(form: Form, text: &[u8]) -> Head
    requires { form.wraps ≡ true → 0 < form.width }
    ensures { IsHead form (scalars_of text.now) result.length (option_map scalars_of (option_copied result.rest)) }
{
    if form.wraps {
        wrap_first(form, text)
    } else {
        cut_first(form, text)
    }
}

/// The first line where lines are cut at the width: the next one begins with the next paragraph.
fn cut_first(form: Form, text: &[u8]) -> Head
    requires { form.wraps ≡ false }
    ensures { IsHead form (scalars_of text.now) result.length (option_map scalars_of (option_copied result.rest)) }
{
    let most = form.width as usize;
    let bytes = text.len();
    let mut rest = text;
    for read in 0..bytes {
        let length = most.min(read);
        let Some((scalar, behind)) = first_of(rest) else {
            return Head { length, rest: None };
        };
        rest = behind;
        if scalar == RETURN {
            return Head {
                length,
                rest: Some(rest),
            };
        }
    }
    // No text has more scalars than bytes.
    Head {
        length: most.min(bytes),
        rest: None,
    }
}

/// The first line where lines that are too long are broken at the last space that fits, or else at the width.
fn wrap_first(form: Form, text: &[u8]) -> Head
    requires wraps { form.wraps ≡ true }
    requires wide { 0 < form.width }
    ensures { IsHead form (scalars_of text.now) result.length (option_map scalars_of (option_copied result.rest)) }
{
    let width = form.width as usize;
    let mut rest = text;
    let mut space = 0;
    let mut next = text;
    for index in 0..width {
        let Some((scalar, behind)) = first_of(rest) else {
            return Head {
                length: index,
                rest: None,
            };
        };
        rest = behind;
        if scalar == RETURN {
            return Head {
                length: index,
                rest: Some(rest),
            };
        }
        if may_break(scalar, index) {
            space = index;
            next = rest;
        }
    }
    break_full(width, rest, space, next)
}

/// Whether a line may be broken at this scalar of it. At its first one it may not.
fn may_break(scalar: u32, index: usize) -> bool
    ensures { result ≡ (scalar == 0x20 && nat_lt 0 index) }
{
    scalar == SPACE && 0 < index
}

/// The first line where as many scalars of its paragraph fill it, and this is left behind them. The last space among them
/// stands at this index, and `next` is left behind it; with 0 there is none.
fn break_full<'a>(width: usize, rest: &'a [u8], space: usize, next: &'a [u8]) -> Head<'a>
    ensures length { result.length ≡ broken_length width space (scalars_of rest.now) }
    ensures rest { option_map scalars_of (option_copied result.rest) ≡ broken_rest space (scalars_of next.now) (scalars_of rest.now) }
{
    match first_of(rest) {
        None => Head {
            length: width,
            rest: None,
        },
        Some((RETURN | SPACE, behind)) => Head {
            length: width,
            rest: Some(behind),
        },
        _ if space == 0 => Head {
            length: width,
            rest: Some(rest),
        },
        _ => Head {
            length: space,
            rest: Some(next),
        },
    }
}
