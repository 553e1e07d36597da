//! Seals, printed.
//!
//! Promise: what is printed is the text of a seal, which is read as this one.
ghost use Rattle.std.specs.Prelude.{◌≡◌, ◌++◌, true, IfOk, OnOk, codes};
ghost use Rattle.std.specs.Fmt.{decimal};
ghost use Rattle.std.specs.List.{list_all};
ghost use Rattle.hex.specs.Hex.{encode_lower};
ghost use Rattle.mh_base.specs.Path.{is_path};
ghost use Rattle.mh_seal.specs.Octets.{is_digest};
ghost use Rattle.mh_seal.specs.Reading.{are_bounds, is_bound, is_group, is_seal};
ghost use Rattle.mh_seal.specs.Text.{line, lines, as_is, bounds_text, group_value, seal_text as seal_text_lem, presence};

use crate::{Digest, Seal, SealedBounds, SealedGroup};
use mh_base::GroupName;
use std::alloc::{AllocError, Global};

/// The text of a seal.
#[tactic(auto, unfolding(crate::specs::Text::seal_text))]
pub fn seal_text(alloc: Global, seal: &Seal) -> Result<Vec<u8>, AllocError>
    ensures text { IfOk result (λ text. text.items ≡ seal_text_lem seal.now) }
    ensures good { OnOk result (is_seal seal.now ≡ true) }
{
    let mut text = Vec::new(alloc);
    put_line(&mut text, b"redplay seal ", b"1")?;
    put_start(&mut text, &seal.start)?;
    put_groups(alloc, &mut text, seal.groups.as_slice())?;
    put_names(&mut text, seal.contents.as_slice())?;
    put_bounds(alloc, &mut text, &seal.bounds)?;
    put_tags(alloc, &mut text, &seal.tags)?;
    put_line(&mut text, b"end", b"")?;
    Ok(text)
}

/// Puts a word and what it says.
#[tactic(auto, unfolding(crate::specs::Text::line))]
fn put_line(out: &mut Vec<u8>, word: &[u8], value: &[u8]) -> Result<(), AllocError>
    ensures { OnOk result (out.new.items ≡ out.old.items ++ line word.now value.now) }
{
    out.extend_from_slice(word)?;
    out.extend_from_slice(value)?;
    out.extend_from_slice(b"\n")
}

fn put_start(out: &mut Vec<u8>, start: &GroupName) -> Result<(), AllocError>
    ensures text { OnOk result (out.new.items ≡ out.old.items ++ line (codes "start ") start.now) }
    ensures good { is_path start.now ≡ true }
{
    put_line(out, b"start ", start.as_bytes())
}

fn put_groups(alloc: Global, out: &mut Vec<u8>, groups: &[SealedGroup]) -> Result<(), AllocError>
    ensures text { OnOk result (out.new.items ≡ out.old.items ++ lines (codes "group ") group_value groups.now) }
    ensures good { OnOk result (list_all is_group groups.now ≡ true) }
{
    for group in groups {
        put_group(alloc, out, group)?;
    }
    Ok(())
}

#[tactic(auto, unfolding(crate::specs::Text::line, crate::specs::Text::group_value, crate::specs::Text::named_value))]
fn put_group(alloc: Global, out: &mut Vec<u8>, group: &SealedGroup) -> Result<(), AllocError>
    ensures text { OnOk result (out.new.items ≡ out.old.items ++ line (codes "group ") (group_value group.now)) }
    ensures good { OnOk result (is_group group.now ≡ true) }
{
    out.extend_from_slice(b"group ")?;
    put_digest(alloc, out, &group.digest)?;
    out.extend_from_slice(b" ")?;
    out.extend_from_slice(presence(group.is_late))?;
    out.extend_from_slice(b" ")?;
    out.extend_from_slice(group.name.as_bytes())?;
    out.extend_from_slice(b"\n")
}

/// Whether the file of a group is there from the start, in four letters.
fn presence(is_late: bool) -> &'static [u8]
    ensures { result.now ≡ presence is_late }
{
    if is_late { b"late" } else { b"here" }
}

fn put_names(out: &mut Vec<u8>, names: &[GroupName]) -> Result<(), AllocError>
    ensures text { OnOk result (out.new.items ≡ out.old.items ++ lines (codes "content ") as_is names.now) }
    ensures good { OnOk result (list_all is_path names.now ≡ true) }
{
    for name in names {
        put_content(out, name)?;
    }
    Ok(())
}

fn put_content(out: &mut Vec<u8>, name: &GroupName) -> Result<(), AllocError>
    ensures text { OnOk result (out.new.items ≡ out.old.items ++ line (codes "content ") name.now) }
    ensures good { is_path name.now ≡ true }
{
    put_line(out, b"content ", name.as_bytes())
}

#[tactic(auto, unfolding(crate::specs::Text::bounds_text))]
fn put_bounds(alloc: Global, out: &mut Vec<u8>, bounds: &SealedBounds) -> Result<(), AllocError>
    ensures text { OnOk result (out.new.items ≡ out.old.items ++ bounds_text bounds.now) }
    ensures good { OnOk result (are_bounds bounds.now ≡ true) }
{
    put_bound(alloc, out, b"bound start ", bounds.start)?;
    put_bound(alloc, out, b"bound key ", bounds.key)?;
    put_bound(alloc, out, b"bound tick ", bounds.tick)?;
    put_bound(alloc, out, b"bound stream ", bounds.stream)?;
    put_bound(alloc, out, b"bound engine ", bounds.engine)?;
    put_bound(alloc, out, b"bound arrive ", bounds.arrive)?;
    Ok(())
}

#[tactic(auto, unfolding(crate::specs::Text::line), using(crate::proofs::ValueLemmas::bound_fits))]
fn put_bound(alloc: Global, out: &mut Vec<u8>, word: &[u8], number: u64) -> Result<(), AllocError>
    ensures text { OnOk result (out.new.items ≡ out.old.items ++ line word.now (decimal number)) }
    ensures good { is_bound number ≡ true }
{
    out.extend_from_slice(word)?;
    put_number(alloc, out, number)?;
    out.extend_from_slice(b"\n")
}

#[tactic(auto, unfolding(crate::specs::Text::line))]
fn put_tags(alloc: Global, out: &mut Vec<u8>, digest: &Digest) -> Result<(), AllocError>
    ensures text { OnOk result (out.new.items ≡ out.old.items ++ line (codes "tags ") (encode_lower digest.now)) }
    ensures good { OnOk result (is_digest digest.now ≡ true) }
{
    out.extend_from_slice(b"tags ")?;
    put_digest(alloc, out, digest)?;
    out.extend_from_slice(b"\n")
}

/// Puts the digest in 64 hexadecimal digits, in lower case.
fn put_digest(alloc: Global, out: &mut Vec<u8>, digest: &Digest) -> Result<(), AllocError>
    ensures text { OnOk result (out.new.items ≡ out.old.items ++ encode_lower digest.now) }
    ensures good { OnOk result (is_digest digest.now ≡ true) }
{
    let digits = hex::encode(alloc, digest.bytes())?;
    out.extend_from_slice(digits.as_bytes())
}

/// Puts a number in decimal digits.
fn put_number(alloc: Global, out: &mut Vec<u8>, number: u64) -> Result<(), AllocError>
    ensures { OnOk result (out.new.items ≡ out.old.items ++ decimal number) }
{
    let digits = number.to_string(alloc)?;
    out.extend_from_slice(digits.as_bytes())
}
