//! Writers by type: each puts the octets of one value behind what a buffer holds, or refuses a value
//! that the notation cannot hold; the buffer is then of no use. Lists, and values that variables hold,
//! of any such type. How an element is laid out is left to `mh_der`.
ghost use Rattle.std.specs.Prelude.{◌≡◌, ◌++◌, true, OnOk, IfErr};
ghost use Rattle.std.specs.List.{list_all};
ghost use Rattle.mh_der.specs.Element.{element};
ghost use Rattle.mh_group.specs.Holdable.{is_reference, is_generic, is_list};
ghost use Rattle.mh_codec.specs.Spelling.{own, several, list, generic, reference};
ghost use Rattle.mh_codec.specs.Tags.{variable_tag};
ghost use Rattle.mh_codec.specs.Unwritable.{Refuses};

use crate::tag_table::TagTable;
use crate::{CodecError, Why};
use mh_base::{LONGEST_LIST, Seq};
use mh_der::{SEQUENCE, Tag, TagClass, begin_element, end_element};
use mh_group::{Generic, Ref};

/// The refusal of what the notation cannot hold.
pub(crate) const PAST_LIMIT: CodecError = CodecError::At {
    why: Why::Limit,
    offset: 0,
};

/// What can be written.
pub(crate) trait Writable {
    ghost use Rattle.std.specs.Prelude.{ℕ, Bool, List};
    ghost use Rattle.mh_codec.specs.Tags.{Tags};

    ghost spelling: { Tags → Self → List ℕ };

    ghost is_good: { Self → Bool };

    fn write(&self, tags: &TagTable, out: &mut Vec<u8>) -> Result<(), CodecError>
        ensures written { OnOk result (out.new.items ≡ out.old.items ++ spelling tags.now self.now) }
        ensures fits { OnOk result (is_good self.now ≡ true) }
        ensures limit { IfErr result (Refuses (is_good self.now)) };
}

/// A list of what can be written, in one sequence.
impl<T: Writable> Writable for Seq<T> {
    ghost use Rattle.mh_codec.specs.Spelling.{list};
    ghost use Rattle.mh_group.specs.Holdable.{is_list};

    ghost spelling = { λ tags. list (T.spelling tags) };

    ghost is_good = { is_list T.is_good };

    fn write(&self, tags: &TagTable, out: &mut Vec<u8>) -> Result<(), CodecError> {
        write_list(tags, out, self.as_slice())
    }
}

/// A value, written directly or held by a variable.
impl<T: Writable> Writable for Generic<T> {
    ghost use Rattle.mh_codec.specs.Spelling.{generic};
    ghost use Rattle.mh_group.specs.Holdable.{is_generic};

    ghost spelling = { λ tags. generic tags (T.spelling tags) };

    ghost is_good = { is_generic T.is_good };

    fn write(&self, tags: &TagTable, out: &mut Vec<u8>) -> Result<(), CodecError> {
        write_generic(tags, out, self)
    }
}

#[tactic(auto, unfolding(crate::specs::Spelling::generic))]
fn write_generic<T: Writable>(
    tags: &TagTable,
    out: &mut Vec<u8>,
    value: &Generic<T>,
) -> Result<(), CodecError>
    ensures written { OnOk result (out.new.items ≡ out.old.items ++ generic tags.now (T.spelling tags.now) value.now) }
    ensures fits { OnOk result (is_generic T.is_good value.now ≡ true) }
    ensures limit { IfErr result (Refuses (is_generic T.is_good value.now)) }
{
    match value {
        Generic::Direct(value) => value.write(tags, out),
        Generic::Indirect(variable) => write_variable(tags, out, variable),
    }
}

/// Writes the reference of a variable that holds a value.
fn write_variable(tags: &TagTable, out: &mut Vec<u8>, variable: &Ref) -> Result<(), CodecError>
    ensures written { OnOk result (out.new.items ≡ out.old.items ++ element (own (variable_tag tags.now)) (reference variable.now)) }
    ensures fits { OnOk result (is_reference variable.now ≡ true) }
    ensures limit { IfErr result (Refuses (is_reference variable.now)) }
{
    let start = begin_element(out, own(tags.variable_tag()))?;
    variable.write(tags, out)?;
    end_element(out, start)?;
    Ok(())
}

/// Writes the members in one sequence.
#[tactic(auto, unfolding(crate::specs::Spelling::list))]
pub(crate) fn write_list<T: Writable>(
    tags: &TagTable,
    out: &mut Vec<u8>,
    members: &[T],
) -> Result<(), CodecError>
    ensures written { OnOk result (out.new.items ≡ out.old.items ++ list (T.spelling tags.now) members.now) }
    ensures fits { OnOk result (is_list T.is_good members.now ≡ true) }
    ensures limit { IfErr result (Refuses (is_list T.is_good members.now)) }
{
    if members.len() > LONGEST_LIST {
        return Err(PAST_LIMIT);
    }
    let start = begin_element(out, SEQUENCE)?;
    write_several(tags, out, members)?;
    end_element(out, start)?;
    Ok(())
}

/// Writes the members one after the other.
pub(crate) fn write_several<T: Writable>(
    tags: &TagTable,
    out: &mut Vec<u8>,
    members: &[T],
) -> Result<(), CodecError>
    ensures written { OnOk result (out.new.items ≡ out.old.items ++ several (T.spelling tags.now) members.now) }
    ensures fits { OnOk result (list_all T.is_good members.now ≡ true) }
    ensures limit { IfErr result (Refuses (list_all T.is_good members.now)) }
{
    for member in members {
        member.write(tags, out)?;
    }
    Ok(())
}

/// The tag of this number that is the notation's own.
pub(crate) fn own(number: u16) -> Tag
    ensures { result ≡ own number }
{
    Tag {
        class: TagClass::Context,
        is_constructed: true,
        number,
    }
}
