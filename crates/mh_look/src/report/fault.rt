//! The line on a fault, read back as far as its words tell one.
ghost use Rattle.std.specs.Prelude.{◌≡◌, ◌<◌, ◌≤◌, ◌^◌, ◌++◌, true, length, IfOk, IfSome};
ghost use Rattle.std.specs.List.{suffix_len};
ghost use Rattle.mh_base.specs.Path.{is_path};
ghost use Rattle.mh_look.specs.Front.{is_other};
ghost use Rattle.mh_look.specs.Report.{IsGoodFault};
ghost use Rattle.mh_look.specs.Lines.{kind_of, fault_of, reference_of, IsGoodReference, TakesReference, TakesFault, TakesShort, TakesGroup};

use crate::report::front::{before, behind};
use crate::report::number::read_number;
use mh_base::{GroupName, NameError, ObjRef};
use mh_group::ActionName;
use mh_model::{Fault, FaultKind};
use std::alloc::{AllocError, Global};

/// The fault whose line the bytes can begin with, if with any.
pub fn guess_fault(alloc: Global, bytes: &[u8]) -> Result<Option<Fault>, AllocError>
    ensures taken { IfOk result (TakesFault bytes.now) }
    ensures good { IfOk result (λ found. IfSome found IsGoodFault) }
{
    let from_what = behind(bytes, b' ');
    let from_action = behind(from_what, b' ');
    let at = guess_reference(alloc, before(behind(from_action, b' '), b'\n'))?;
    let what = fault_kind(before(from_what, b' '));
    let action = ActionName::of_word(before(from_action, b' '));
    Ok(fault_of(what, action, at))
}

fn fault_of(
    what: Option<FaultKind>,
    action: Option<ActionName>,
    at: Option<ObjRef>,
) -> Option<Fault>
    ensures { result ≡ fault_of what action at }
{
    Some(Fault {
        what: what?,
        action: action?,
        at: at?,
    })
}

/// What is wrong, by its word.
fn fault_kind(word: &[u8]) -> Option<FaultKind>
    ensures { result ≡ kind_of word.now }
{
    if word == b"absent".as_slice() {
        return Some(FaultKind::Absent);
    }
    if word == b"class".as_slice() {
        return Some(FaultKind::WrongClass);
    }
    if word == b"kind".as_slice() {
        return Some(FaultKind::WrongKind);
    }
    None
}

/// The reference that these bytes are: a path, in which spaces may stand, and a number behind the
/// last space.
fn guess_reference(alloc: Global, bytes: &[u8]) -> Result<Option<ObjRef>, AllocError>
    ensures taken { IfOk result (TakesReference bytes.now) }
    ensures good { IfOk result (λ found. IfSome found IsGoodReference) }
{
    let digits = count_behind(bytes, b' ');
    let end = bytes.len() - digits;
    let group = guess_group(alloc, &bytes[..end.saturating_sub(1)])?;
    Ok(reference_of(group, guess_short(&bytes[end..])))
}

fn reference_of(group: Option<GroupName>, number: Option<u32>) -> Option<ObjRef>
    ensures { result ≡ reference_of group number }
{
    Some(ObjRef {
        group: group?,
        number: number?,
    })
}

/// How many bytes stand behind the last such byte; all, where there is none.
fn count_behind(bytes: &[u8], byte: u8) -> usize
    ensures count { result ≡ suffix_len (is_other byte) bytes.now }
    ensures within { result ≤ length bytes.now }
{
    bytes.iter().rev().take_while(|b| **b != byte).count()
}

/// The number of 32 bits with which the bytes begin.
pub fn guess_short(bytes: &[u8]) -> Option<u32>
    ensures taken { TakesShort bytes.now result }
    ensures within { IfSome result (λ n. n < 2 ^ 32) }
{
    let (number, _) = read_number(bytes)?;
    u32::try_from(number).ok()
}

/// The group with this path, if it is one.
fn guess_group(alloc: Global, path: &[u8]) -> Result<Option<GroupName>, AllocError>
    ensures taken { IfOk result (TakesGroup path.now) }
    ensures good { IfOk result (λ found. IfSome found (λ name. is_path name ≡ true)) }
{
    match GroupName::of_path(alloc, path) {
        Ok(name) => Ok(Some(name)),
        Err(NameError::BadName) => Ok(None),
        Err(NameError::NoMemory) => Err(AllocError),
    }
}
