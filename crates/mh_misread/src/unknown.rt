//! Names that no table has.
ghost use Rattle.std.specs.Prelude.{◌≡◌, drop};
ghost use Rattle.mh_misread.specs.Unknown.{is_data, is_data_part, is_data_shape, key_at, part_keywords, keyword_table, shape_words_table, part_words_table, unknown_keyword, unless_key, word_table, unknown_word, unknown};

use crate::goal::Goal;
use crate::key_word::key_named;
use crate::misread::Misread;
use crate::name::{Name, keyword_named};
use crate::nearest::{Table, nearest};
use crate::part::{Listed, Part, part_at};
use mh_base::Kind;
use mh_group::{Need, Shape};
use mh_model::Key;
use mh_text::TokenKind;

/// The table in which a keyword is looked for, by what is wanted.
fn keyword_table(goal: Goal) -> Table
    ensures { result ≡ keyword_table goal }
{
    match goal {
        Goal::GroupClass | Goal::ItemClass => Table::Classes,
        Goal::Fields(_) => Table::Attributes,
        Goal::Members(Listed::Actions) => Table::Actions,
        Goal::Members(Listed::Arguments) => Table::Kinds,
        Goal::Part(row, before) => part_keywords(part_at(row, before)),
        _ => Table::Marks,
    }
}

/// The keywords of a value that has its kind in front, or else of one that a variable or a file may hold.
fn part_keywords(part: Option<Part>) -> Table
    ensures { result ≡ part_keywords part }
{
    match part {
        Some(Part::Need(Need::Typed)) => Table::Kinds,
        _ => Table::Marks,
    }
}

/// The table in which a word is looked for. Where no word is wanted it may be a keyword without its colon.
fn word_table(goal: Goal) -> Table
    ensures { result ≡ word_table goal }
{
    match goal {
        Goal::Value(class, attribute) => shape_words_table(class.shape(attribute)),
        Goal::Part(row, before) => part_words_table(part_at(row, before)),
        Goal::OfKind(Kind::Bool) => Table::Truths,
        _ => keyword_table(goal),
    }
}

fn shape_words_table(shape: Shape) -> Table
    ensures { result ≡ shape_words_table shape }
{
    match shape {
        Shape::Event => Table::Events,
        Shape::Justification => Table::Justifications,
        Shape::Bool | Shape::Data => Table::Truths,
        _ => Table::Marks,
    }
}

fn part_words_table(part: Option<Part>) -> Table
    ensures { result ≡ part_words_table part }
{
    match part {
        Some(Part::Need(Need::Event)) => Table::Events,
        Some(Part::Need(Need::Bool | Need::Data)) => Table::Truths,
        _ => part_keywords(part),
    }
}

/// A keyword or a word that no table has, where this is wanted.
pub(crate) fn unknown(goal: Goal, kind: TokenKind, text: &[u8]) -> Misread
    ensures { result ≡ unknown goal kind text.now }
{
    match kind {
        TokenKind::Word => unless_key(
            key_at(goal, text),
            unknown_word(goal, text, keyword_named(text)),
        ),
        _ => unknown_keyword(goal, behind_colon(text)),
    }
}

/// A keyword of this name, which no table has.
fn unknown_keyword(goal: Goal, name: &[u8]) -> Misread
    ensures { result ≡ unknown_keyword goal name.now }
{
    unless_key(
        key_at(goal, name),
        Misread::Unknown(goal, nearest(keyword_table(goal), name)),
    )
}

/// The key by its name, if there is one, and else another misreading.
fn unless_key(key: Option<Key>, other: Misread) -> Misread
    ensures { result ≡ unless_key key other }
{
    match key {
        Some(key) => Misread::KeyName(key),
        None => other,
    }
}

/// The key with this name, where data of an event are wanted.
fn key_at(goal: Goal, name: &[u8]) -> Option<Key>
    ensures { result ≡ key_at goal name.now }
{
    if is_data(goal) { key_named(name) } else { None }
}

/// Whether data of an event are wanted.
fn is_data(goal: Goal) -> bool
    ensures { result ≡ is_data goal }
{
    match goal {
        Goal::Value(class, attribute) => is_data_shape(class.shape(attribute)),
        Goal::Part(row, before) => is_data_part(part_at(row, before)),
        _ => false,
    }
}

fn is_data_shape(shape: Shape) -> bool
    ensures { result ≡ is_data_shape shape }
{
    matches!(shape, Shape::Data)
}

fn is_data_part(part: Option<Part>) -> bool
    ensures { result ≡ is_data_part part }
{
    matches!(part, Some(Part::Need(Need::Data)))
}

/// A word that no table has, which may be the name of a keyword.
fn unknown_word(goal: Goal, text: &[u8], keyword: Option<Name>) -> Misread
    ensures { result ≡ unknown_word goal text.now keyword }
{
    match keyword {
        Some(name) => Misread::NoColon(name),
        None => Misread::Unknown(goal, nearest(word_table(goal), text)),
    }
}

/// A keyword without its colon.
fn behind_colon(text: &[u8]) -> &[u8]
    ensures { result.now ≡ drop 1 text.now }
{
    text.get(1..).unwrap_or(&[])
}
