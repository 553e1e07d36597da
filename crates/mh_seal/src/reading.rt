//! Seals, read.
//!
//! Promise: bytes are read as a seal just where they are the text of one, and as that seal. A seal of another version
//! is told so; of other bytes the first line is told that no seal has behind the lines before it.
ghost use Rattle.std.specs.Prelude.{◌≡◌, ◌<◌, ◌+◌, ◌^◌, true, codes, length, IfOk, IfErr};
ghost use Rattle.mh_seal.specs.Text.{seal_text, no_value};
ghost use Rattle.mh_seal.specs.Breaking.{IsBreak};
ghost use Rattle.mh_seal.specs.Lines.{HasLine, IsMissing};
ghost use Rattle.mh_seal.specs.Octets.{is_digest};
ghost use Rattle.mh_seal.specs.Reading.{IsRefusal, is_seal};
ghost use Rattle.mh_seal.specs.Sections.{body, closing, ending, is_ending};

use crate::lines::{line_behind, read_all, read_one};
use crate::{Digest, Seal, SealError, SealedBounds, SealedGroup};
use mh_base::GroupName;
use std::alloc::Global;

/// The seal with this text.
#[tactic(auto, using(crate::proofs::SealLemmas::second_fits))]
pub fn read_seal(alloc: Global, bytes: &[u8]) -> Result<Seal, SealError>
    ensures found { IfOk result (λ seal. (is_seal seal ≡ true) × (bytes.now ≡ seal_text seal)) }
    ensures refused { IfErr result (IsRefusal bytes.now) }
{
    let Some((version, rest)) = line_behind(b"redplay seal ", bytes) else {
        return Err(SealError::Line(1));
    };
    if version == b"1".as_slice() {
        read_body(alloc, 2, rest)
    } else {
        Err(SealError::Version)
    }
}

/// The seal whose text stands here from the start on, in a line of this number.
#[tactic(auto, using(crate::proofs::SectionLemmas::no_start))]
fn read_body(alloc: Global, line: usize, bytes: &[u8]) -> Result<Seal, SealError>
    requires { line + length bytes.now < 2 ^ 64 }
    ensures found { IfOk result (λ seal. (is_seal seal ≡ true) × (bytes.now ≡ body seal)) }
    ensures refused { IfErr result (IsBreak is_seal body line bytes.now) }
{
    let (start, rest) = read_one::<GroupName>(alloc, b"start ", line, bytes)?;
    let line = line + 1;
    let (groups, rest) = read_all::<SealedGroup>(alloc, b"group ", rest)?;
    let line = line + groups.len();
    let (contents, rest) = read_all::<GroupName>(alloc, b"content ", rest)?;
    let line = line + contents.len();
    let (bounds, tags) = read_ending(alloc, line, rest)?;
    Ok(Seal {
        start,
        groups,
        contents,
        bounds,
        tags,
    })
}

/// What stands here from the bounds on, in a line of this number.
#[tactic(auto, using(crate::proofs::EndingLemmas::no_first_bound))]
fn read_ending(
    alloc: Global,
    line: usize,
    bytes: &[u8],
) -> Result<(SealedBounds, Digest), SealError>
    requires { line + length bytes.now < 2 ^ 64 }
    ensures found { IfOk result (λ r. (is_ending r ≡ true) × (bytes.now ≡ ending r)) }
    ensures refused { IfErr result (IsBreak is_ending ending line bytes.now) }
{
    let (start, rest) = read_one::<u64>(alloc, b"bound start ", line, bytes)?;
    let line = line + 1;
    let (key, rest) = read_one::<u64>(alloc, b"bound key ", line, rest)?;
    let line = line + 1;
    let (tick, rest) = read_one::<u64>(alloc, b"bound tick ", line, rest)?;
    let line = line + 1;
    let (stream, rest) = read_one::<u64>(alloc, b"bound stream ", line, rest)?;
    let line = line + 1;
    let (engine, rest) = read_one::<u64>(alloc, b"bound engine ", line, rest)?;
    let line = line + 1;
    let (arrive, rest) = read_one::<u64>(alloc, b"bound arrive ", line, rest)?;
    let tags = read_closing(alloc, line + 1, rest)?;
    let bounds = SealedBounds {
        start,
        key,
        tick,
        stream,
        engine,
        arrive,
    };
    Ok((bounds, tags))
}

/// What stands here from the tags on, in a line of this number, and nothing behind it.
#[tactic(auto, using(crate::proofs::EndingLemmas::no_tags))]
fn read_closing(alloc: Global, line: usize, bytes: &[u8]) -> Result<Digest, SealError>
    requires { line + length bytes.now < 2 ^ 64 }
    ensures found { IfOk result (λ tags. (is_digest tags ≡ true) × (bytes.now ≡ closing tags)) }
    ensures refused { IfErr result (IsBreak is_digest closing line bytes.now) }
{
    let (tags, rest) = read_one::<Digest>(alloc, b"tags ", line, bytes)?;
    let line = line + 1;
    let rest = read_end(line, rest)?;
    let line = line + 1;
    if rest.is_empty() {
        Ok(tags)
    } else {
        Err(SealError::Line(line))
    }
}

/// What stands behind the last line.
#[tactic(auto, using(crate::proofs::EndingLemmas::end_found, crate::proofs::EndingLemmas::no_end_line))]
fn read_end(line: usize, bytes: &[u8]) -> Result<&[u8], SealError>
    ensures found { IfOk result (λ rest. HasLine (λ _. true) no_value (codes "end") bytes.now tt rest.now) }
    ensures shorter { IfOk result (λ rest. length rest.now < length bytes.now) }
    ensures refused { IfErr result (IsMissing (λ _. true) no_value (codes "end") line bytes.now) }
{
    let Some((value, rest)) = line_behind(b"end", bytes) else {
        return Err(SealError::Line(line));
    };
    if value.is_empty() {
        Ok(rest)
    } else {
        Err(SealError::Line(line))
    }
}
