//! The writer of groups: fields, ingredients, and the group itself. How an element is laid out is left
//! to `mh_der`.
ghost use Rattle.std.specs.Prelude.{◌≡◌, ◌≢◌, ◌++◌, ◌&&◌, true, OnOk, IfOk, IfErr};
ghost use Rattle.mh_group.specs.Fit.{written_items};
ghost use Rattle.mh_group.specs.Holdable.{is_list, has_settings, is_ingredient, is_holdable};
ghost use Rattle.mh_codec.specs.Spelling.{items as items_lem, body, group as group_lem};
ghost use Rattle.mh_codec.specs.Writable.{Spells};
ghost use Rattle.mh_codec.specs.declared.codec_error.Why.{Why};
ghost use Rattle.mh_codec.specs.Unwritable.{Refuses, HasNoSpelling};

use crate::CodecError;
use crate::tag_table::TagTable;
use crate::writable::{PAST_LIMIT, Writable, own, write_list, write_several};
use crate::writing_value::{write_integer, write_named, write_natural};
use mh_base::{LARGEST_FILE, Seq};
use mh_der::{begin_element, end_element};
use mh_group::group::before_items;
use mh_group::{Attribute, Field, Group, Ingredient, Setting, Written};
use std::alloc::Global;

/// The octets that spell the group by these tags; 13 at 0 exactly where the notation cannot hold it.
#[tactic(auto, using(crate::proofs::WritingLemmas::none_spells_unwritable, crate::proofs::WritingLemmas::none_spells_large), unfolding(crate::specs::Writable::Spells))]
pub fn encode_group(alloc: Global, tags: &TagTable, group: &Group) -> Result<Vec<u8>, CodecError>
    ensures written { IfOk result (λ octets. Spells tags.now octets.items group.now) }
    ensures limit { IfErr result (λ e. e ≢ CodecError.NoMemory → (e ≡ CodecError.At Why.Limit 0) × HasNoSpelling tags.now group.now) }
{
    let mut octets = Vec::new(alloc);
    write_group(tags, &mut octets, group.written())?;
    if octets.len() > LARGEST_FILE {
        return Err(PAST_LIMIT);
    }
    Ok(octets)
}

#[tactic(auto, unfolding(crate::specs::Spelling::group, mh_group::specs::Holdable::is_holdable))]
fn write_group(tags: &TagTable, out: &mut Vec<u8>, group: &Written) -> Result<(), CodecError>
    ensures written { OnOk result (out.new.items ≡ out.old.items ++ group_lem tags.now group.now) }
    ensures fits { OnOk result (is_holdable group.now ≡ true) }
    ensures limit { IfErr result (Refuses (is_holdable group.now)) }
{
    let start = begin_element(out, own(tags.class_tag(group.class)))?;
    write_named(out, &group.identifier, 0)?;
    write_body(tags, out, &group.items, group.fields.as_slice())?;
    end_element(out, start)?;
    Ok(())
}

/// Writes the fields, and the items at their place among them.
#[tactic(auto, unfolding(crate::specs::Spelling::body))]
fn write_body(
    tags: &TagTable,
    out: &mut Vec<u8>,
    items: &Option<Seq<Ingredient>>,
    fields: &[Field],
) -> Result<(), CodecError>
    ensures written { OnOk result (out.new.items ≡ out.old.items ++ body tags.now items.now fields.now) }
    ensures settings { OnOk result (has_settings fields.now ≡ true) }
    ensures members { OnOk result (is_list is_ingredient (written_items items.now) ≡ true) }
    ensures limit { IfErr result (Refuses (has_settings fields.now && is_list is_ingredient (written_items items.now))) }
{
    match items {
        None => write_several(tags, out, fields),
        Some(items) => {
            let count = before_items(fields);
            write_several(tags, out, &fields[..count])?;
            write_items(tags, out, items.as_slice())?;
            write_several(tags, out, &fields[count..])
        }
    }
}

#[tactic(auto, unfolding(crate::specs::Spelling::items))]
fn write_items(tags: &TagTable, out: &mut Vec<u8>, items: &[Ingredient]) -> Result<(), CodecError>
    ensures written { OnOk result (out.new.items ≡ out.old.items ++ items_lem tags.now items.now) }
    ensures fits { OnOk result (is_list is_ingredient items.now ≡ true) }
    ensures limit { IfErr result (Refuses (is_list is_ingredient items.now)) }
{
    let start = begin_element(out, own(tags.attribute_tag(Attribute::Items)))?;
    write_list(tags, out, items)?;
    end_element(out, start)?;
    Ok(())
}

impl Writable for Ingredient {
    ghost use Rattle.mh_codec.specs.Spelling.{ingredient as spelling_lem};
    ghost use Rattle.mh_group.specs.Holdable.{is_ingredient as is_good_lem};

    ghost spelling = { spelling_lem };

    ghost is_good = { is_good_lem };

    #[tactic(auto, unfolding(crate::specs::Spelling::ingredient))]
    fn write(&self, tags: &TagTable, out: &mut Vec<u8>) -> Result<(), CodecError> {
        let start = begin_element(out, own(tags.class_tag(self.class)))?;
        write_natural(out, self.number.get())?;
        write_several(tags, out, self.fields.as_slice())?;
        end_element(out, start)?;
        Ok(())
    }
}

impl Writable for Field {
    ghost use Rattle.mh_codec.specs.Spelling.{field as spelling_lem};
    ghost use Rattle.mh_group.specs.Holdable.{is_setting as is_good_lem};

    ghost spelling = { spelling_lem };

    ghost is_good = { λ f. is_good_lem f.setting };

    #[tactic(auto, unfolding(crate::specs::Spelling::field))]
    fn write(&self, tags: &TagTable, out: &mut Vec<u8>) -> Result<(), CodecError> {
        let start = begin_element(out, own(tags.attribute_tag(self.attribute)))?;
        self.setting.write(tags, out)?;
        end_element(out, start)?;
        Ok(())
    }
}

/// The value of an attribute.
impl Writable for Setting {
    ghost use Rattle.mh_codec.specs.Spelling.{value as spelling_lem};
    ghost use Rattle.mh_group.specs.Holdable.{is_setting as is_good_lem};

    ghost spelling = { spelling_lem };

    ghost is_good = { is_good_lem };

    #[tactic(auto, unfolding(crate::specs::Spelling::value))]
    fn write(&self, tags: &TagTable, out: &mut Vec<u8>) -> Result<(), CodecError> {
        match self {
            Setting::Bool(truth) => truth.write(tags, out),
            Setting::Int(value) => value.write(tags, out),
            Setting::Pair(first, second) => {
                write_integer(out, *first)?;
                write_integer(out, *second)?;
                Ok(())
            }
            Setting::Octets(octets) => octets.write(tags, out),
            Setting::Colour(colour) => colour.write(tags, out),
            Setting::Ref(reference) => reference.write(tags, out),
            Setting::Content(content) => content.write(tags, out),
            Setting::ContentRef(name) => name.write(tags, out),
            Setting::Event(event) => Ok(write_natural(out, event.number())?),
            Setting::Data(event_data) => event_data.write(tags, out),
            Setting::Justification(side) => Ok(write_natural(out, side.number())?),
            Setting::Effect(actions) => actions.write(tags, out),
            Setting::MovementTable(rows) => rows.write(tags, out),
            Setting::Members(members) => members.write(tags, out),
            Setting::Positions(positions) => positions.write(tags, out),
            Setting::NextScenes(scenes) => scenes.write(tags, out),
        }
    }
}
