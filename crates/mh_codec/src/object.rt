//! Readers of fields, ingredients and groups, and `decode_group`. Which attributes a class takes and
//! has to be written with is the word of `mh_group`'s tables.
ghost use Rattle.std.specs.Prelude.{◌≡◌, ◌≢◌, ◌≤◌, IfOk, IfErr};
ghost use Rattle.mh_codec.specs.Gives.{Gives};
ghost use Rattle.mh_codec.specs.Writable.{Spells, SpellsNone, SpellsNoOther};
ghost use Rattle.mh_codec.specs.Reading.{read, begins_group, group_at, body, class_at, identifier_in, fields as fields_lem, next_field, attribute_at, complete, items_at, ingredient_at};

use crate::element::{ended, only, own_at, refused, sequence_at, taken};
use crate::kind::ITEMS;
use crate::readable::{Readable, list_at};
use crate::setting::setting;
use crate::tag_table::TagTable;
use crate::value::{ingredient_number_at, named_in};
use crate::writable::own;
use crate::{CodecError, Why};
use mh_base::{LARGEST_FILE, LONGEST_LIST, Seq};
use mh_der::{Element, Reader, begins_with};
use mh_group::group::has_required;
use mh_group::{Attribute, Class, Field, Group, Ingredient, Written, WrittenName};
use std::alloc::Global;

/// More fields than an object can have, since their numbers rise.
const MOST_FIELDS: usize = 64;

/// Whether the octets begin as a group does: with the tag of an application or of a scene, as an element
/// begins (ITU-T X.690, 8.1.2).
pub fn begins_group(tags: &TagTable, octets: &[u8]) -> bool
    ensures { result ≡ begins_group tags.now octets.now }
{
    begins_with(octets, own(tags.class_tag(Class::Application)))
        || begins_with(octets, own(tags.class_tag(Class::Scene)))
}

/// The group that the octets spell by these tags, or the first element from the left that goes wrong, with
/// the offset of its first byte.
#[tactic(auto, unfolding(crate::specs::Reading::read))]
pub fn decode_group(alloc: Global, tags: &TagTable, octets: &[u8]) -> Result<Group, CodecError>
    ensures exact { Gives (λ x. x) result (read tags.now octets.now) }
    ensures found { IfOk result (Spells tags.now octets.now) }
    ensures one { IfOk result (SpellsNoOther tags.now octets.now) }
    ensures only { IfErr result (λ e. e ≢ CodecError.NoMemory → SpellsNone tags.now octets.now) }
{
    tags.reveal_table();
    if octets.len() > LARGEST_FILE {
        return Err(CodecError::At {
            why: Why::Limit,
            offset: 0,
        });
    }
    let (element, behind) = taken(Reader::new(octets))?;
    let written = group_at(alloc, tags, &element)?;
    ended(behind)?;
    match Group::new(written) {
        Ok(group) => Ok(group),
        // What is read by the tables is what they allow.
        Err(_) => unreachable!(),
    }
}

#[tactic(auto, unfolding(crate::specs::Reading::group_at))]
fn group_at(alloc: Global, tags: &TagTable, element: &Element<'_>) -> Result<Written, CodecError>
    ensures { Gives (λ x. x) result (group_at tags.now element.now) }
{
    let class = class_at(tags, true, element)?;
    let (inner, reader) = taken(element.contents())?;
    let identifier = identifier_in(alloc, sequence_at(&inner)?)?;
    let (fields, items) = body(alloc, tags, class, reader)?;
    let fields = complete(class, fields, element)?;
    Ok(Written {
        class,
        identifier,
        fields,
        items,
    })
}

/// The class of the element, a group's or an ingredient's.
#[tactic(auto, unfolding(crate::specs::Reading::class_at))]
fn class_at(tags: &TagTable, wants_group: bool, element: &Element<'_>) -> Result<Class, CodecError>
    ensures { Gives (λ x. x) result (class_at tags.now wants_group element.now) }
{
    let number = own_at(element)?;
    let Some(class) = tags.class_with(number) else {
        return Err(refused(element, Why::UnknownTag));
    };
    if class.is_group() == wants_group {
        Ok(class)
    } else {
        Err(refused(element, Why::UnknownTag))
    }
}

/// The group's own identifier: its name, and the number 0.
#[tactic(auto, unfolding(crate::specs::Reading::identifier_in))]
fn identifier_in(alloc: Global, reader: Reader<'_>) -> Result<WrittenName, CodecError>
    ensures { Gives (λ x. x) result (identifier_in reader.entry) }
{
    let (name, number, element) = named_in(alloc, reader)?;
    if number.get() != 0 {
        return Err(refused(&element, Why::BadValue));
    }
    Ok(name)
}

/// The fields of a group, and the items among them.
#[tactic(auto, unfolding(crate::specs::Reading::body))]
fn body(
    alloc: Global,
    tags: &TagTable,
    class: Class,
    reader: Reader<'_>,
) -> Result<(Seq<Field>, Option<Seq<Ingredient>>), CodecError>
    ensures { Gives (λ x. x) result (body tags.now class reader.entry) }
{
    let (before, element, behind) = fields(alloc, tags, class, 0, Seq::new(alloc), reader)?;
    let Some(element) = element else {
        return Ok((before, None));
    };
    let items = items_at(alloc, tags, &element)?;
    let (fields, _, _) = fields(alloc, tags, class, ITEMS, before, behind)?;
    Ok((fields, Some(items)))
}

/// The fields up to the end or to the element of the items, behind those that came before; the last
/// of these had this number. No attribute has a larger number than 38.
fn fields<'a>(
    alloc: Global,
    tags: &TagTable,
    class: Class,
    last: u32,
    before: Seq<Field>,
    reader: Reader<'a>,
) -> Result<(Seq<Field>, Option<Element<'a>>, Reader<'a>), CodecError>
    requires { last ≤ 38 }
    ensures { Gives (λ x. x) result (fields_lem tags.now class 64 last before reader.entry) }
{
    tags.reveal_table();
    let mut fields = before;
    let mut last = last;
    let mut reader = reader;
    for _ in 0..MOST_FIELDS {
        let (member, items, behind) = next_field(alloc, tags, class, last, reader)?;
        let Some(field) = member else {
            return Ok((fields, items, behind));
        };
        last = field.attribute.number();
        fields.push(field)?;
        reader = behind;
    }
    unreachable!()
}

/// The next field, or the element of the items, and the reader behind it; neither at the end.
#[tactic(auto, unfolding(crate::specs::Reading::next_field))]
fn next_field<'a>(
    alloc: Global,
    tags: &TagTable,
    class: Class,
    last: u32,
    reader: Reader<'a>,
) -> Result<(Option<Field>, Option<Element<'a>>, Reader<'a>), CodecError>
    ensures { Gives (λ x. x) result (next_field tags.now class last reader.entry) }
{
    if reader.is_empty() {
        return Ok((None, None, reader));
    }
    let (element, behind) = taken(reader)?;
    let attribute = attribute_at(tags, class, last, &element)?;
    let shape = class.shape(attribute);
    if shape.is_items() {
        return Ok((None, Some(element), behind));
    }
    let setting = setting(alloc, tags, shape, element.contents())?;
    Ok((Some(Field { attribute, setting }), None, behind))
}

/// The attribute that the element gives, which the class takes and which comes behind the last one.
#[tactic(auto, unfolding(crate::specs::Reading::attribute_at))]
fn attribute_at(
    tags: &TagTable,
    class: Class,
    last: u32,
    element: &Element<'_>,
) -> Result<Attribute, CodecError>
    ensures { Gives (λ x. x) result (attribute_at tags.now class last element.now) }
{
    let number = own_at(element)?;
    let Some(attribute) = tags.attribute_with(number) else {
        return Err(refused(element, Why::UnknownTag));
    };
    if !class.takes(attribute) {
        return Err(refused(element, Why::UnknownTag));
    }
    if attribute.number() <= last {
        return Err(refused(element, Why::WrongOrder));
    }
    Ok(attribute)
}

/// The fields, where all are there with which the class has to be written; if not, the element is
/// refused.
#[tactic(auto, unfolding(crate::specs::Reading::complete))]
fn complete(
    class: Class,
    fields: Seq<Field>,
    element: &Element<'_>,
) -> Result<Seq<Field>, CodecError>
    ensures { Gives (λ x. x) result (complete class fields element.now) }
{
    if has_required(class, fields.as_slice()) {
        Ok(fields)
    } else {
        Err(refused(element, Why::MissingField))
    }
}

/// The ingredients of a group, in one sequence.
#[tactic(auto, unfolding(crate::specs::Reading::items_at))]
fn items_at(
    alloc: Global,
    tags: &TagTable,
    element: &Element<'_>,
) -> Result<Seq<Ingredient>, CodecError>
    ensures { Gives (λ x. x) result (items_at tags.now element.now) }
{
    let inner = only(element.contents())?;
    list_at::<Ingredient>(alloc, tags, LONGEST_LIST, &inner)
}

#[tactic(auto, unfolding(crate::specs::Reading::ingredient_at))]
fn ingredient_at(
    alloc: Global,
    tags: &TagTable,
    element: &Element<'_>,
) -> Result<Ingredient, CodecError>
    ensures { Gives (λ x. x) result (ingredient_at tags.now element.now) }
{
    let class = class_at(tags, false, element)?;
    let (inner, reader) = taken(element.contents())?;
    let number = ingredient_number_at(&inner)?;
    let (fields, _, _) = fields(alloc, tags, class, 0, Seq::new(alloc), reader)?;
    let fields = complete(class, fields, element)?;
    Ok(Ingredient {
        class,
        number,
        fields,
    })
}

impl Readable for Ingredient {
    ghost use Rattle.mh_codec.specs.Reading.{ingredient_at as reading_lem};

    type Value = Ingredient;

    ghost reading = { reading_lem };

    fn read_at(
        alloc: Global,
        tags: &TagTable,
        element: &Element<'_>,
    ) -> Result<Ingredient, CodecError> {
        ingredient_at(alloc, tags, element)
    }
}
