//! Lines of a seal: one, and as many as stand there of one word.
//!
//! Promise: a line is read just where one of the word says something good; else its number is told.
ghost use Rattle.std.specs.Prelude.{◌≡◌, ◌<◌, ◌≤◌, ◌+◌, ◌==◌, true, false, length, drop, IfOk, IfErr, IfSome, MatchOption};
ghost use Rattle.std.specs.List.{position};
ghost use Rattle.std.specs.Option.{option_map};
ghost use Rattle.mh_seal.specs.Lines.{AreLines, HasLine, IsLine, IsLineValue, IsMissing, begins};

use crate::SealError;
use crate::line_value::LineValue;
use mh_base::Seq;
use std::alloc::{AllocError, Global};

/// The value of the line of this word that stands there, and what stands behind it; or this number, of the line.
pub(crate) fn read_one<'a, V: LineValue>(
    alloc: Global,
    word: &[u8],
    line: usize,
    bytes: &'a [u8],
) -> Result<(V, &'a [u8]), SealError>
    ensures found { IfOk result (λ r. HasLine V.is_good V.spelling word.now bytes.now r.0 r.1.now) }
    ensures shorter { IfOk result (λ r. length r.1.now < length bytes.now) }
    ensures refused { IfErr result (IsMissing V.is_good V.spelling word.now line bytes.now) }
{
    match read_line::<V>(alloc, word, bytes)? {
        Some(said) => Ok(said),
        None => Err(SealError::Line(line)),
    }
}

/// The values of the lines of this word that stand there, and what stands behind them.
#[tactic(auto, using(crate::proofs::LineLemmas::one_more))]
pub(crate) fn read_all<'a, V: LineValue>(
    alloc: Global,
    word: &[u8],
    bytes: &'a [u8],
) -> Result<(Seq<V>, &'a [u8]), AllocError>
    ensures found { IfOk result (λ r. AreLines V.is_good V.spelling word.now bytes.now r.0 r.1.now) }
    ensures shorter { IfOk result (λ r. length r.0 + length r.1.now ≤ length bytes.now) }
{
    let mut said = Seq::new(alloc);
    let mut rest = bytes;
    while let Some((one, behind)) = read_line::<V>(alloc, word, rest)? {
        said.push(one)?;
        rest = behind;
    }
    Ok((said, rest))
}

/// The value of the first line, if it is one of this word, and what stands behind it.
#[tactic(auto, using(crate::proofs::LineLemmas::said_line, crate::proofs::LineLemmas::no_line_said))]
fn read_line<'a, V: LineValue>(
    alloc: Global,
    word: &[u8],
    bytes: &'a [u8],
) -> Result<Option<(V, &'a [u8])>, AllocError>
    ensures found { IfOk result (λ found. IsLineValue V.is_good V.spelling word.now bytes.now (option_map (λ x. (x.0, x.1.now)) found)) }
    ensures shorter { IfOk result (λ found. IfSome found (λ x. length x.1.now < length bytes.now)) }
{
    let Some((value, behind)) = line_behind(word, bytes) else {
        return Ok(None);
    };
    match V::read(alloc, value)? {
        Some(said) => Ok(Some((said, behind))),
        None => Ok(None),
    }
}

/// What the first line says behind this word, if it begins with it, and what stands behind its end.
#[tactic(auto, using(crate::proofs::LineLemmas::none_by_feed, crate::proofs::LineLemmas::none_by_word))]
pub(crate) fn line_behind<'a>(word: &[u8], bytes: &'a [u8]) -> Option<(&'a [u8], &'a [u8])>
    ensures found { IsLine word.now bytes.now (option_map (λ r. (r.0.now, r.1.now)) result) }
    ensures shorter { IfSome result (λ r. length r.1.now < length bytes.now) }
{
    let end = line_end(bytes)?;
    let value = behind(&bytes[..end], word)?;
    Some((value, &bytes[end + 1..]))
}

/// Where the first line ends, if a line feed ends it.
fn line_end(bytes: &[u8]) -> Option<usize>
    ensures { result ≡ position (λ b. b == 10) bytes.now }
{
    bytes.iter().position(|b| *b == b'\n')
}

/// What stands behind the word, where the line begins with it.
fn behind<'a>(line: &'a [u8], word: &[u8]) -> Option<&'a [u8]>
    ensures { MatchOption result
        (begins word.now line.now ≡ false)
        (λ rest. (begins word.now line.now ≡ true) × (rest.now ≡ drop (length word.now) line.now)) }
{
    line.strip_prefix(word)
}
