//! `Mistake`: where a text goes wrong, and where reading goes on behind that.
ghost use Rattle.std.specs.Prelude.{◌≡◌, length, IfOk, Option};
ghost use Rattle.mh_text.specs.Numbers.{number_of};
ghost use Rattle.mh_text.specs.Reading.{read};
ghost use Rattle.mh_misread.specs.Resuming as spec;
ghost use Rattle.mh_misread.specs.Resuming.{refusal_of, mistake_at, mistake_from, mistake_in, next_behind, next_mistake, next_place};

use crate::resuming::{from_brace, text_from};
use crate::span::behind;
use mh_text::{TextError, read_group};
use std::alloc::{AllocError, Global};

/// Where a file goes wrong.
#[derive(Clone, Copy)]
pub struct Mistake {
    /// How many bytes of the file stand in front of those that were read; 0 where all was read.
    pub from: usize,
    /// The offset in the text that was read.
    pub offset: usize,
    /// The offset in the file.
    pub place: usize,
    /// The number of the refusal.
    pub number: u32,
    /// The offset in the file at which reading goes on, if it does.
    pub next: Option<usize>,
}

/// Why a text is not read, and at which offset.
#[derive(Clone, Copy)]
pub(crate) struct Refused {
    pub(crate) number: u32,
    pub(crate) offset: usize,
}

/// The first mistakes of the file, at most so many. Behind each, reading goes on at the next ingredient.
#[tactic(auto, unfolding(crate::specs::Resuming::mistakes))]
pub fn mistakes(alloc: Global, most: usize, file: &[u8]) -> Result<Vec<Mistake>, AllocError>
    ensures { IfOk result (λ found. found.items ≡ spec.mistakes most file.now) }
{
    let mut found = Vec::new(alloc);
    let mut next = Some(0);
    for _ in 0..most {
        match next_mistake(alloc, file, next)? {
            Some(mistake) => {
                found.push(mistake)?;
                next = mistake.next;
            }
            None => return Ok(found),
        }
    }
    Ok(found)
}

fn next_mistake(
    alloc: Global,
    file: &[u8],
    next: Option<usize>,
) -> Result<Option<Mistake>, AllocError>
    ensures { IfOk result (λ mistake. mistake ≡ next_mistake file.now next) }
{
    match next {
        Some(from) => mistake_from(alloc, file, from),
        None => Ok(None),
    }
}

/// The first mistake of the file, read from this place on.
#[tactic(auto, unfolding(crate::specs::Resuming::mistake_from))]
fn mistake_from(alloc: Global, file: &[u8], from: usize) -> Result<Option<Mistake>, AllocError>
    ensures { IfOk result (λ mistake. mistake ≡ mistake_from file.now from) }
{
    let text = text_from(alloc, file, from)?;
    let refused = refusal_of(alloc, text.as_slice())?;
    Ok(mistake_in(file, text.as_slice(), from, refused))
}

/// Why the text is not read, if it is not.
fn refusal_of(alloc: Global, text: &[u8]) -> Result<Option<Refused>, AllocError>
    ensures { IfOk result (λ refused. refused ≡ refusal_of (read text.now)) }
{
    match read_group(alloc, text) {
        Ok(_) => Ok(None),
        Err(TextError::At { why, offset }) => Ok(Some(Refused {
            number: why.number(),
            offset,
        })),
        Err(TextError::NoMemory) => Err(AllocError),
    }
}

fn mistake_in(file: &[u8], text: &[u8], from: usize, refused: Option<Refused>) -> Option<Mistake>
    ensures { result ≡ mistake_in file.now text.now from refused }
{
    match refused {
        Some(refused) => mistake_at(file, text, from, refused),
        None => None,
    }
}

/// The mistake at the offset in the text that was read from this place of the file on, if it is of the file.
#[tactic(auto, unfolding(crate::specs::Resuming::mistake_at))]
fn mistake_at(file: &[u8], text: &[u8], from: usize, refused: Refused) -> Option<Mistake>
    ensures { result ≡ mistake_at file.now text.now from refused }
{
    let rest = behind(text, refused.offset);
    let place = file.len().saturating_sub(rest.len());
    if place < from {
        return None;
    }
    Some(Mistake {
        from,
        offset: refused.offset,
        place,
        number: refused.number,
        next: next_behind(refused.number, file.len(), rest),
    })
}

/// Where reading goes on. A text that is too long is read no further.
fn next_behind(number: u32, size: usize, rest: &[u8]) -> Option<usize>
    ensures { result ≡ next_behind number size rest.now }
{
    if number == 24 {
        return None;
    }
    next_place(size, from_brace(rest))
}

/// Where these bytes begin in a file of this size that ends with them.
fn next_place(size: usize, rest: &[u8]) -> Option<usize>
    ensures { result ≡ next_place size rest.now }
{
    match rest {
        [] => None,
        _ => Some(size.saturating_sub(rest.len())),
    }
}
