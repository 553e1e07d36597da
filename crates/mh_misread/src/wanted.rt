//! Words for what is wanted in a text: parts of rows, values, and whole rows.
ghost use Rattle.std.specs.Prelude.{◌≡◌, ◌++◌, [], OnOk};
ghost use Rattle.mh_group.specs.Words.{events};
ghost use Rattle.mh_misread.specs.Telling.{part_wanted, field_wanted, wanted, optional_mark, need_written, needs_written, action_row, field_row, row_written, classes_taking, classes_with, fields_of, fields_with, words_with};

use crate::found::put_keyword_written;
use crate::goal::Goal;
use crate::nearest::EVENTS;
use crate::part::{Part, Row, part_at};
use crate::phrases::{
    A_FIELD_OF, A_GROUP, A_GROUP_CLASS, A_VARIABLE, AN_ITEM_CLASS, AND_THEN, ITEM_NUMBER,
    OR_ITS_BRACE,
};
use crate::words::{
    kind_words, member_words, need_name, open_words, part_words, second_words, shape_words,
};
use mh_group::{ActionName, Attribute, Class, Need, attribute, class};
use mh_told::text::Text;
use std::alloc::AllocError;

fn put_part_wanted(text: &mut Text, part: Option<Part>) -> Result<(), AllocError>
    ensures { OnOk result (text.new ≡ text.old ++ part_wanted part) }
{
    match part {
        Some(part) => text.put(part_words(part)),
        None => text.put(b"`)`"),
    }
}

/// Puts that a field, or the end of the object, is wanted.
#[tactic(auto, unfolding(crate::specs::Telling::field_wanted))]
fn put_field_wanted(text: &mut Text, class: Class) -> Result<(), AllocError>
    ensures { OnOk result (text.new ≡ text.old ++ field_wanted class) }
{
    text.put(A_FIELD_OF)?;
    text.put(class.word())?;
    text.put(OR_ITS_BRACE)
}

/// Puts what the goal wants.
#[tactic(auto, unfolding(crate::specs::Telling::wanted))]
pub(crate) fn put_wanted(text: &mut Text, goal: Goal) -> Result<(), AllocError>
    ensures { OnOk result (text.new ≡ text.old ++ wanted goal) }
{
    match goal {
        Goal::Group => text.put(A_GROUP),
        Goal::GroupClass => text.put(A_GROUP_CLASS),
        Goal::ItemClass => text.put(AN_ITEM_CLASS),
        Goal::ItemNumber(_) => text.put(ITEM_NUMBER),
        Goal::Fields(class) => put_field_wanted(text, class),
        Goal::Value(class, attribute) => text.put(shape_words(class.shape(attribute))),
        Goal::Second(class, attribute) => text.put(second_words(class.shape(attribute))),
        Goal::Open(row) => text.put(open_words(row)),
        Goal::Part(row, before) => put_part_wanted(text, part_at(row, before)),
        Goal::Members(listed) => text.put(member_words(listed)),
        Goal::OfKind(kind) => text.put(kind_words(kind)),
        Goal::Variable => text.put(A_VARIABLE),
    }
}

/// Puts a mark behind what may be missing.
fn put_optional_mark(text: &mut Text, may_lack: bool) -> Result<(), AllocError>
    ensures { OnOk result (text.new ≡ text.old ++ optional_mark may_lack) }
{
    if may_lack { text.put(b"?") } else { Ok(()) }
}

#[tactic(auto, unfolding(crate::specs::Telling::need_written))]
fn put_need_written(text: &mut Text, need: Need, may_lack: bool) -> Result<(), AllocError>
    ensures { OnOk result (text.new ≡ text.old ++ need_written need may_lack) }
{
    text.put(b" ")?;
    text.put(need_name(need))?;
    put_optional_mark(text, may_lack)
}

/// Puts the parameters of a row, of which so many may be missing at the end.
fn put_needs_written(text: &mut Text, optional: usize, needs: &[Need]) -> Result<(), AllocError>
    ensures { OnOk result (text.new ≡ text.old ++ needs_written optional needs.now) }
{
    let mut left = needs;
    while let [need, behind @ ..] = left {
        put_need_written(text, *need, left.len() <= optional)?;
        left = behind;
    }
    Ok(())
}

/// Puts how an action is written.
#[tactic(auto, unfolding(crate::specs::Telling::action_row))]
fn put_action_row(text: &mut Text, action: ActionName) -> Result<(), AllocError>
    ensures { OnOk result (text.new ≡ text.old ++ action_row action) }
{
    text.put(b"`:")?;
    text.put(action.word())?;
    text.put(b" ( target")?;
    put_needs_written(text, action.optional(), action.needs())?;
    text.put(b" )`")
}

/// Puts how a field is written.
#[tactic(auto, unfolding(crate::specs::Telling::field_row))]
pub(crate) fn put_field_row(
    text: &mut Text,
    class: Class,
    attribute: Attribute,
) -> Result<(), AllocError>
    ensures { OnOk result (text.new ≡ text.old ++ field_row class attribute) }
{
    put_keyword_written(text, attribute.word())?;
    text.put(AND_THEN)?;
    text.put(shape_words(class.shape(attribute)))
}

/// Puts all of the action or the field that is being read, or else what is wanted.
pub(crate) fn put_row_written(
    text: &mut Text,
    goal: Goal,
    row: Option<Goal>,
) -> Result<(), AllocError>
    ensures { OnOk result (text.new ≡ text.old ++ row_written goal row) }
{
    match row {
        Some(Goal::Value(class, attribute) | Goal::Second(class, attribute)) => {
            put_field_row(text, class, attribute)
        }
        Some(Goal::Open(Row::Action(action)) | Goal::Part(Row::Action(action), _)) => {
            put_action_row(text, action)
        }
        _ => put_wanted(text, goal),
    }
}

/// Puts the classes that take the attribute.
#[tactic(auto, unfolding(crate::specs::Telling::classes_taking))]
pub(crate) fn put_classes_taking(text: &mut Text, attribute: Attribute) -> Result<(), AllocError>
    ensures { OnOk result (text.new ≡ text.old ++ classes_taking attribute) }
{
    put_classes_with(text, attribute, &class::ALL)
}

/// Puts those of these classes that take the attribute.
fn put_classes_with(
    text: &mut Text,
    attribute: Attribute,
    classes: &[Class],
) -> Result<(), AllocError>
    ensures { OnOk result (text.new ≡ text.old ++ classes_with [] attribute classes.now) }
{
    let mut front: &[u8] = b"";
    let mut left = classes;
    while let [class, behind @ ..] = left {
        if class.takes(attribute) {
            text.put(front)?;
            text.put(class.word())?;
            front = b", ";
        }
        left = behind;
    }
    Ok(())
}

/// Puts the attributes that objects of the class take.
#[tactic(auto, unfolding(crate::specs::Telling::fields_of))]
pub(crate) fn put_fields_of(text: &mut Text, class: Class) -> Result<(), AllocError>
    ensures { OnOk result (text.new ≡ text.old ++ fields_of class) }
{
    put_fields_with(text, class, &attribute::ALL)
}

/// Puts those of these attributes that objects of the class take.
fn put_fields_with(
    text: &mut Text,
    class: Class,
    attributes: &[Attribute],
) -> Result<(), AllocError>
    ensures { OnOk result (text.new ≡ text.old ++ fields_with [] class attributes.now) }
{
    let mut front: &[u8] = b"";
    let mut left = attributes;
    while let [attribute, behind @ ..] = left {
        if class.takes(*attribute) {
            text.put(front)?;
            text.put(attribute.word())?;
            front = b", ";
        }
        left = behind;
    }
    Ok(())
}

/// Puts the words of all types of events.
pub(crate) fn put_event_words(text: &mut Text) -> Result<(), AllocError>
    ensures { OnOk result (text.new ≡ text.old ++ words_with [] events) }
{
    let mut front: &[u8] = b"";
    let mut left = EVENTS.as_slice();
    while let [event, behind @ ..] = left {
        text.put(front)?;
        text.put(mh_group::event_word(*event))?;
        front = b", ";
        left = behind;
    }
    Ok(())
}
