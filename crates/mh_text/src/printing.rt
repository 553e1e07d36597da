//! The printer of groups: the group itself, its ingredients and fields.

pub(crate) mod member;
pub(crate) mod printable;
pub(crate) mod value;

ghost use Rattle.std.specs.Prelude.{◌≡◌, ◌≢◌, ◌++◌, ◌&&◌, true, false, IfOk, OnOk, IfErr};
ghost use Rattle.mh_group.specs.Holdable.{is_list, has_settings, is_ingredient, is_holdable};
ghost use Rattle.mh_group.specs.Fit.{written_items};
ghost use Rattle.mh_text.specs.declared.text_error.Why.{Why};
ghost use Rattle.mh_text.specs.Spelling.{Spells};
ghost use Rattle.mh_text.specs.Printed.{items as items_lem, body, printed, passes_limit, Refuses, Puts};

use crate::TextError;
use crate::printing::printable::{
    PAST_LIMIT, Printable, print_list, print_several, put_keyword, put_word,
};
use crate::printing::value::{put_integer, put_named, put_natural};
use mh_base::{LARGEST_FILE, Seq};
use mh_group::{Attribute, Field, Group, Ingredient, Setting, Written, event_word, group};
use std::alloc::Global;

/// The printed form of the group: its words in the order of the grammar, with one space between any two
/// and a line feed at the end; fields in the order of their numbers, and none that was not written. 24 at
/// 0 where a list of the group, or the whole of it, is longer than a reader takes.
#[tactic(auto, using(crate::proofs::PrintingLemmas::unheld_passes, crate::proofs::PrintingLemmas::long_passes, crate::proofs::PrintingLemmas::within_limit))]
pub fn print_group(alloc: Global, group: &Group) -> Result<Vec<u8>, TextError>
    ensures printed { IfOk result (λ text. text.items ≡ printed group.now) }
    ensures within { OnOk result (passes_limit group.now ≡ false) }
    ensures spelled { IfOk result (λ text. Spells text.items group.now) }
    ensures limit { IfErr result (λ e. e ≢ TextError.NoMemory → (e ≡ TextError.At Why.Limit 0) × (passes_limit group.now ≡ true)) }
{
    let mut out = Vec::new(alloc);
    print_written(&mut out, group.written())?;
    if out.len() > LARGEST_FILE {
        return Err(PAST_LIMIT);
    }
    Ok(out)
}

#[tactic(auto, unfolding(crate::specs::Printed::printed, mh_group::specs::Holdable::is_holdable))]
fn print_written(out: &mut Vec<u8>, group: &Written) -> Result<(), TextError>
    ensures { Puts result out.old.items out.new.items (printed group.now) (is_holdable group.now) }
{
    out.extend_from_slice(b"{")?;
    put_keyword(out, group.class.word())?;
    put_named(out, &group.identifier, 0)?;
    print_body(out, &group.items, group.fields.as_slice())?;
    out.extend_from_slice(b" }\n")?;
    Ok(())
}

/// Prints the fields, and the items at their place among them.
#[tactic(auto, unfolding(crate::specs::Printed::body))]
fn print_body(
    out: &mut Vec<u8>,
    items: &Option<Seq<Ingredient>>,
    fields: &[Field],
) -> Result<(), TextError>
    ensures printed { OnOk result (out.new.items ≡ out.old.items ++ body items.now fields.now) }
    ensures settings { OnOk result (has_settings fields.now ≡ true) }
    ensures members { OnOk result (is_list is_ingredient (written_items items.now) ≡ true) }
    ensures limit { IfErr result (Refuses (has_settings fields.now && is_list is_ingredient (written_items items.now))) }
{
    match items {
        None => print_several(out, fields),
        Some(items) => {
            let count = group::before_items(fields);
            print_several(out, &fields[..count])?;
            print_items(out, items.as_slice())?;
            print_several(out, &fields[count..])
        }
    }
}

#[tactic(auto, unfolding(crate::specs::Printed::items))]
fn print_items(out: &mut Vec<u8>, items: &[Ingredient]) -> Result<(), TextError>
    ensures { Puts result out.old.items out.new.items
        (items_lem items.now) (is_list is_ingredient items.now) }
{
    put_keyword(out, Attribute::Items.word())?;
    print_list(out, items)
}

impl Printable for Ingredient {
    ghost use Rattle.mh_text.specs.Printed.{ingredient as printed_lem};
    ghost use Rattle.mh_group.specs.Holdable.{is_ingredient as is_good_lem};

    ghost printed = { printed_lem };

    ghost is_good = { is_good_lem };

    #[tactic(auto, unfolding(crate::specs::Printed::ingredient))]
    fn print(&self, out: &mut Vec<u8>) -> Result<(), TextError> {
        out.extend_from_slice(b" {")?;
        put_keyword(out, self.class.word())?;
        put_natural(out, self.number.get())?;
        print_several(out, self.fields.as_slice())?;
        out.extend_from_slice(b" }")?;
        Ok(())
    }
}

impl Printable for Field {
    ghost use Rattle.mh_text.specs.Printed.{field as printed_lem};
    ghost use Rattle.mh_group.specs.Holdable.{is_setting as is_good_lem};

    ghost printed = { printed_lem };

    ghost is_good = { λ f. is_good_lem f.setting };

    #[tactic(auto, unfolding(crate::specs::Printed::field))]
    fn print(&self, out: &mut Vec<u8>) -> Result<(), TextError> {
        put_keyword(out, self.attribute.word())?;
        self.setting.print(out)
    }
}

/// The value of an attribute.
impl Printable for Setting {
    ghost use Rattle.mh_text.specs.Printed.{value as printed_lem};
    ghost use Rattle.mh_group.specs.Holdable.{is_setting as is_good_lem};

    ghost printed = { printed_lem };

    ghost is_good = { is_good_lem };

    #[tactic(auto, unfolding(crate::specs::Printed::value))]
    fn print(&self, out: &mut Vec<u8>) -> Result<(), TextError> {
        match self {
            Setting::Bool(truth) => truth.print(out),
            Setting::Int(value) => value.print(out),
            Setting::Pair(first, second) => {
                put_integer(out, *first)?;
                put_integer(out, *second)?;
                Ok(())
            }
            Setting::Octets(octets) => octets.print(out),
            Setting::Colour(colour) => colour.print(out),
            Setting::Ref(reference) => reference.print(out),
            Setting::Content(content) => content.print(out),
            Setting::ContentRef(name) => name.print(out),
            Setting::Event(event) => Ok(put_word(out, event_word(*event))?),
            Setting::Data(value) => value.print(out),
            Setting::Justification(side) => Ok(put_word(out, side.word())?),
            Setting::Effect(actions) => actions.print(out),
            Setting::MovementTable(rows) => rows.print(out),
            Setting::Members(members) => members.print(out),
            Setting::Positions(positions) => positions.print(out),
            Setting::NextScenes(scenes) => scenes.print(out),
        }
    }
}
