//! What may stand at a place of a text, in words that an author is told.
ghost use Rattle.std.specs.Prelude.{◌≡◌};
ghost use Rattle.mh_misread.specs.Words.{open_words, shape_words, need_words, need_name, part_words, member_words, kind_words, second_words, limits_words};

use crate::limits::Limits;
use crate::part::{Listed, Part, Row};
use mh_base::Kind;
use mh_group::{Need, Shape};

pub const A_LIST_OF_ITEMS: &[u8] =
    b"a list of items in brackets, as `( {:IntegerVar 1 :OrigValue 0} )`";

pub const A_LIST_OF_ACTIONS: &[u8] = b"a list of actions in brackets, as `( :Run (10) )`";

pub const A_TRUTH: &[u8] = b"`true` or `false`";

pub const AN_INTEGER: &[u8] = b"an integer";

pub const A_NATURAL: &[u8] = b"an integer from 0";

pub const A_LENGTH: &[u8] = b"an integer from 1 to 255";

pub const TWO_INTEGERS: &[u8] = b"two integers, as `12 -16`";

pub const A_SIZE: &[u8] = b"two integers from 0, as `120 16`";

pub const THE_SCREEN: &[u8] = b"`720 576`";

pub const A_REFERENCE: &[u8] = b"a reference, as `10` or `(\"~/main\" 10)`";

pub const AN_EVENT: &[u8] = b"a type of events, as `UserInput`";

pub const EVENT_DATA: &[u8] = b"an integer, as the number of a key, or `true` or `false`";

pub const A_STRING: &[u8] = b"a string";

pub const A_COLOUR: &[u8] = b"a colour of four octets, as `'=FF=FF=FF=00'`";

pub const A_CONTENT: &[u8] = b"a string, or the name of a file, as `:ContentRef (\"~/text\")`";

pub const A_CONTENT_NAME: &[u8] = b"the name of a file, as `:ContentRef (\"~/text\")`";

pub const A_JUSTIFICATION: &[u8] = b"`start`, `end` or `centre`";

pub const A_MOVEMENT_TABLE: &[u8] = b"a list of rows of integers, as `( ( 2 0 ) ( 0 1 ) )`";

pub const A_LIST_OF_MEMBERS: &[u8] = b"a list of members, as `( (10) (11 ( :Run (12) )) )`";

pub const A_LIST_OF_REFERENCES: &[u8] =
    b"a list of references in brackets of their own, as `( (10) (11) )`";

pub const A_LIST_OF_POSITIONS: &[u8] = b"a list of positions, as `( ( 0 0 ) ( 0 24 ) )`";

pub const A_LIST_OF_SCENES: &[u8] = b"a list of names with integers, as `( (\"~/next\" 1) )`";

pub const A_RECEIVER: &[u8] = b"the reference of a variable that takes the answer, as `10`";

pub const A_TYPED_VALUE: &[u8] = b"a value with its kind in front, as `:GInteger 1`";

pub const ARGUMENTS: &[u8] = b"a list of values with their kinds in front, as `( :GInteger 1 )`";

pub const BOOLEAN: &[u8] = b"boolean";

pub const INTEGER: &[u8] = b"integer";

pub const STRING: &[u8] = b"string";

pub const REFERENCE: &[u8] = b"reference";

pub const CONTENT: &[u8] = b"content";

pub const DATA: &[u8] = b"data";

pub const EVENT: &[u8] = b"event";

pub const VARIABLE: &[u8] = b"variable";

pub const TYPED: &[u8] = b"typed";

pub const TYPED_LIST: &[u8] = b"( typed .. )";

pub const A_NAME: &[u8] = b"a name, as `\"~/main\"`";

pub const ZERO: &[u8] = b"the number 0";

pub const A_NUMBER: &[u8] = b"the number of an object, or 0 for the group itself";

pub const A_SLOT: &[u8] = b"the actions of a slot in brackets, as `( :Run (10) )`, or `)`";

pub const A_TARGET: &[u8] = b"the reference of the target, as `10` or `(\"~/main\" 10)`";

pub const AN_ITEM: &[u8] = b"an item, which begins with `{`, or `)`";

pub const AN_ACTION: &[u8] = b"an action, as `:Run (10)`, or `)`";

pub const A_ROW: &[u8] = b"a row of integers in brackets of its own, as `( 2 0 )`, or `)`";

pub const A_FURTHER_INTEGER: &[u8] = b"an integer or `)`";

pub const A_MEMBER: &[u8] = b"a member in brackets, as `(10)`, or `)`";

pub const A_LIST_ITEM: &[u8] = b"a reference in brackets of its own, as `(10)`, or `)`";

pub const A_POSITION: &[u8] = b"two integers in brackets, as `( 0 24 )`, or `)`";

pub const A_NEXT_SCENE: &[u8] = b"a name and an integer in brackets, as `(\"~/next\" 1)`, or `)`";

pub const AN_ARGUMENT: &[u8] = b"a value with its kind in front, as `:GInteger 1`, or `)`";

pub const A_SECOND_NATURAL: &[u8] = b"a second integer, from 0";

pub const SCREEN_HEIGHT: &[u8] = b"`576`";

pub const A_SECOND_INTEGER: &[u8] = b"a second integer";

pub const ANY_INTEGER: &[u8] = b"an integer from -2147483648 to 2147483647";

pub const FROM_ZERO: &[u8] = b"an integer from 0 to 2147483647";

pub const FROM_ONE: &[u8] = b"a number from 1 to 2147483647";

pub const GROUP_NUMBER: &[u8] = b"0, the number of every group";

pub const SCREEN_WIDTH: &[u8] = b"720, the width of the screen";

pub const THE_HEIGHT: &[u8] = b"576, the height of the screen";

pub const FOUR_OCTETS: &[u8] =
    b"a colour of four octets, red, green, blue and transparency, as `'=FF=FF=FF=00'`";

pub const AN_IDENTIFIER: &[u8] = b"the name of the group and 0 in brackets, as `(\"~/main\" 0)`";

pub const A_FILE_NAME: &[u8] = b"the name of a file in brackets, as `(\"~/text\")`";

/// What stands where a row begins.
#[tactic(auto, unfolding(crate::specs::Words::open_words))]
pub(crate) fn open_words(row: Row) -> &'static [u8]
    ensures { result.now ≡ open_words row }
{
    match row {
        Row::Identifier => AN_IDENTIFIER,
        Row::ContentName => A_FILE_NAME,
        _ => b"`(`",
    }
}

/// What the value of a field of this shape is.
#[tactic(auto, unfolding(crate::specs::Words::shape_words))]
pub(crate) fn shape_words(shape: Shape) -> &'static [u8]
    ensures { result.now ≡ shape_words shape }
{
    match shape {
        Shape::Items => A_LIST_OF_ITEMS,
        Shape::Effect => A_LIST_OF_ACTIONS,
        Shape::Bool => A_TRUTH,
        Shape::Int => AN_INTEGER,
        Shape::Natural => A_NATURAL,
        Shape::Length => A_LENGTH,
        Shape::Pair => TWO_INTEGERS,
        Shape::Size => A_SIZE,
        Shape::Screen => THE_SCREEN,
        Shape::Ref => A_REFERENCE,
        Shape::Event => AN_EVENT,
        Shape::Data => EVENT_DATA,
        Shape::Octets => A_STRING,
        Shape::Colour => A_COLOUR,
        Shape::Content => A_CONTENT,
        Shape::ContentRef => A_CONTENT_NAME,
        Shape::Justification => A_JUSTIFICATION,
        Shape::MovementTable => A_MOVEMENT_TABLE,
        Shape::Members => A_LIST_OF_MEMBERS,
        Shape::ListItems => A_LIST_OF_REFERENCES,
        Shape::Positions => A_LIST_OF_POSITIONS,
        Shape::NextScenes => A_LIST_OF_SCENES,
    }
}

/// What a parameter is.
#[tactic(auto, unfolding(crate::specs::Words::need_words))]
pub(crate) fn need_words(need: Need) -> &'static [u8]
    ensures { result.now ≡ need_words need }
{
    match need {
        Need::Bool => A_TRUTH,
        Need::Int => AN_INTEGER,
        Need::Octets => A_STRING,
        Need::Ref => A_REFERENCE,
        Need::Content => A_CONTENT,
        Need::Data => EVENT_DATA,
        Need::Event => AN_EVENT,
        Need::Receiver(_) => A_RECEIVER,
        Need::Typed => A_TYPED_VALUE,
        Need::Arguments => ARGUMENTS,
    }
}

/// How a parameter is called in the row of an action.
#[tactic(auto, unfolding(crate::specs::Words::need_name))]
pub(crate) fn need_name(need: Need) -> &'static [u8]
    ensures { result.now ≡ need_name need }
{
    match need {
        Need::Bool => BOOLEAN,
        Need::Int => INTEGER,
        Need::Octets => STRING,
        Need::Ref => REFERENCE,
        Need::Content => CONTENT,
        Need::Data => DATA,
        Need::Event => EVENT,
        Need::Receiver(_) => VARIABLE,
        Need::Typed => TYPED,
        Need::Arguments => TYPED_LIST,
    }
}

/// What a part of a row is.
#[tactic(auto, unfolding(crate::specs::Words::part_words))]
pub(crate) fn part_words(part: Part) -> &'static [u8]
    ensures { result.now ≡ part_words part }
{
    match part {
        Part::Name => A_NAME,
        Part::Zero => ZERO,
        Part::Number => A_NUMBER,
        Part::Integer => AN_INTEGER,
        Part::Object => A_REFERENCE,
        Part::Slot => A_SLOT,
        Part::Target => A_TARGET,
        Part::Need(need) => need_words(need),
    }
}

/// What a member of a list is, or what ends the list.
#[tactic(auto, unfolding(crate::specs::Words::member_words))]
pub(crate) fn member_words(listed: Listed) -> &'static [u8]
    ensures { result.now ≡ member_words listed }
{
    match listed {
        Listed::Items => AN_ITEM,
        Listed::Actions => AN_ACTION,
        Listed::Rows => A_ROW,
        Listed::Integers => A_FURTHER_INTEGER,
        Listed::Members => A_MEMBER,
        Listed::ListItems => A_LIST_ITEM,
        Listed::Positions => A_POSITION,
        Listed::NextScenes => A_NEXT_SCENE,
        Listed::Arguments => AN_ARGUMENT,
    }
}

/// What a value is behind the keyword of its kind.
#[tactic(auto, unfolding(crate::specs::Words::kind_words))]
pub(crate) fn kind_words(kind: Kind) -> &'static [u8]
    ensures { result.now ≡ kind_words kind }
{
    match kind {
        Kind::Bool => A_TRUTH,
        Kind::Int => AN_INTEGER,
        Kind::Octets => A_STRING,
        Kind::Object => A_REFERENCE,
        Kind::Content => A_CONTENT_NAME,
    }
}

/// What the second integer of a field is.
#[tactic(auto, unfolding(crate::specs::Words::second_words))]
pub(crate) fn second_words(shape: Shape) -> &'static [u8]
    ensures { result.now ≡ second_words shape }
{
    match shape {
        Shape::Size => A_SECOND_NATURAL,
        Shape::Screen => SCREEN_HEIGHT,
        _ => A_SECOND_INTEGER,
    }
}

/// What is within the limits.
#[tactic(auto, unfolding(crate::specs::Words::limits_words))]
pub(crate) fn limits_words(limits: Limits) -> &'static [u8]
    ensures { result.now ≡ limits_words limits }
{
    match limits {
        Limits::Integers => ANY_INTEGER,
        Limits::Naturals => FROM_ZERO,
        Limits::Positives => FROM_ONE,
        Limits::Lengths => A_LENGTH,
        Limits::Zero => GROUP_NUMBER,
        Limits::Width => SCREEN_WIDTH,
        Limits::Height => THE_HEIGHT,
        Limits::Colours => FOUR_OCTETS,
    }
}
