//! What is told of a misread text: what was found, and what is wanted. It has no full stop.
ghost use Rattle.std.specs.Prelude.{◌≡◌, ◌++◌, OnOk};
ghost use Rattle.mh_misread.specs.Telling.{and_holds, holds_cause, comment_cause, separator_cause, string_cause, string_byte_cause, byte_cause, slip_cause, no_colon_cause, unknown_cause, behind_string_cause, key_cause, tight_cause, behind_cause, end_cause, unclosed_cause, not_taken_cause, twice_cause, lacks_cause, unwanted_cause, range_cause, cause};

use crate::found::{
    put_bracket_words, put_byte_words, put_found, put_keyword_written, put_line_words, put_marked,
    put_written,
};
use crate::goal::Goal;
use crate::limits::limits_of;
use crate::misread::Misread;
use crate::name::Name;
use crate::phrases::{
    AND_HOLDS, BARE_NAME_CAUSE, BETWEEN_ITEMS, COLON_CAUSE, COMMENTS_BEGIN, DOES_NOT_END,
    ENDS_WITHOUT, ESCAPE_CAUSE, IN_NO_STRING, IN_PLACE_OF, IS_A_KEY, IS_NO_FIELD, MINUS_CAUSE,
    NO_TABLE_HAS, NOTHING_BEGINS, POINT_CAUSE, RIGHT_BEHIND_STRING, SPACE_LACKS, STANDS_BEHIND,
    STANDS_HERE, STANDS_IN_THIS, STRING_BEGINS, STRING_HAS, STRING_HOLDS, TEXT_ENDS, WANTS_COLON,
};
use crate::slip::Slip;
use crate::slip::held::{first_keyword, line_of};
use crate::span::behind;
use crate::wanted::put_wanted;
use crate::words::limits_words;
use mh_group::{Attribute, Class};
use mh_told::text::Text;
use std::alloc::AllocError;

/// Puts that comments begin otherwise.
#[tactic(auto, unfolding(crate::specs::Telling::comment_cause))]
fn put_comment_cause(text: &mut Text, byte: u8) -> Result<(), AllocError>
    ensures { OnOk result (text.new ≡ text.old ++ comment_cause byte) }
{
    text.put(COMMENTS_BEGIN)?;
    put_byte_words(text, byte)
}

/// Puts that nothing parts items.
#[tactic(auto, unfolding(crate::specs::Telling::separator_cause))]
fn put_separator_cause(text: &mut Text, byte: u8) -> Result<(), AllocError>
    ensures { OnOk result (text.new ≡ text.old ++ separator_cause byte) }
{
    text.put(BETWEEN_ITEMS)?;
    put_byte_words(text, byte)
}

/// Puts that a string does not end.
#[tactic(auto, unfolding(crate::specs::Telling::string_cause))]
fn put_string_cause(text: &mut Text, file: &[u8], offset: usize) -> Result<(), AllocError>
    ensures { OnOk result (text.new ≡ text.old ++ string_cause file.now offset) }
{
    text.put(STRING_BEGINS)?;
    put_line_words(text, file, offset)?;
    text.put(DOES_NOT_END)?;
    put_and_holds(text, first_keyword(line_of(behind(file, offset))))
}

/// Puts the keyword that a string holds.
#[tactic(auto, unfolding(crate::specs::Telling::and_holds))]
fn put_and_holds(text: &mut Text, keyword: Option<Name>) -> Result<(), AllocError>
    ensures { OnOk result (text.new ≡ text.old ++ and_holds keyword) }
{
    match keyword {
        None => Ok(()),
        Some(name) => {
            text.put(AND_HOLDS)?;
            put_written(text, name)
        }
    }
}

/// Puts that no string has this byte.
#[tactic(auto, unfolding(crate::specs::Telling::string_byte_cause))]
fn put_string_byte_cause(text: &mut Text, byte: u8) -> Result<(), AllocError>
    ensures { OnOk result (text.new ≡ text.old ++ string_byte_cause byte) }
{
    text.put(STRING_HAS)?;
    put_byte_words(text, byte)?;
    text.put(IN_NO_STRING)
}

/// Puts that no token begins so.
#[tactic(auto, unfolding(crate::specs::Telling::byte_cause))]
fn put_byte_cause(text: &mut Text, byte: u8) -> Result<(), AllocError>
    ensures { OnOk result (text.new ≡ text.old ++ byte_cause byte) }
{
    text.put(NOTHING_BEGINS)?;
    put_byte_words(text, byte)
}

/// Puts what is wrong where no token begins.
#[tactic(auto, unfolding(crate::specs::Telling::slip_cause))]
fn put_slip_cause(text: &mut Text, file: &[u8], offset: usize, slip: Slip) -> Result<(), AllocError>
    ensures { OnOk result (text.new ≡ text.old ++ slip_cause file.now offset slip) }
{
    match slip {
        Slip::Comment(byte) => put_comment_cause(text, byte),
        Slip::Separator(byte) => put_separator_cause(text, byte),
        Slip::OpenString(_) => put_string_cause(text, file, offset),
        Slip::ByteInString { byte, .. } => put_string_byte_cause(text, byte),
        Slip::Escape => text.put(ESCAPE_CAUSE),
        Slip::Colon => text.put(COLON_CAUSE),
        Slip::Minus => text.put(MINUS_CAUSE),
        Slip::Point => text.put(POINT_CAUSE),
        Slip::Operator(byte) => put_byte_cause(text, byte),
        Slip::Byte(byte) => put_byte_cause(text, byte),
    }
}

/// Puts that a keyword has no colon.
#[tactic(auto, unfolding(crate::specs::Telling::no_colon_cause))]
fn put_no_colon_cause(text: &mut Text, name: Name) -> Result<(), AllocError>
    ensures { OnOk result (text.new ≡ text.old ++ no_colon_cause name) }
{
    put_marked(text, name.word())?;
    text.put(WANTS_COLON)
}

/// Puts that no table has what is found.
#[tactic(auto, unfolding(crate::specs::Telling::unknown_cause))]
fn put_unknown_cause(text: &mut Text, file: &[u8], offset: usize) -> Result<(), AllocError>
    ensures { OnOk result (text.new ≡ text.old ++ unknown_cause file.now offset) }
{
    text.put(NO_TABLE_HAS)?;
    put_found(text, file, offset)
}

/// Puts that a string ends right in front of what is found.
#[tactic(auto, unfolding(crate::specs::Telling::behind_string_cause))]
fn put_behind_string_cause(text: &mut Text, file: &[u8], offset: usize) -> Result<(), AllocError>
    ensures { OnOk result (text.new ≡ text.old ++ behind_string_cause file.now offset) }
{
    put_found(text, file, offset)?;
    text.put(RIGHT_BEHIND_STRING)
}

/// Puts which keyword a string holds that ends in front of the place.
#[tactic(auto, unfolding(crate::specs::Telling::holds_cause))]
fn put_holds_cause(text: &mut Text, name: Name) -> Result<(), AllocError>
    ensures { OnOk result (text.new ≡ text.old ++ holds_cause name) }
{
    text.put(STRING_HOLDS)?;
    put_written(text, name)
}

/// Puts that it is the name of a key.
#[tactic(auto, unfolding(crate::specs::Telling::key_cause))]
fn put_key_cause(text: &mut Text, file: &[u8], offset: usize) -> Result<(), AllocError>
    ensures { OnOk result (text.new ≡ text.old ++ key_cause file.now offset) }
{
    put_found(text, file, offset)?;
    text.put(IS_A_KEY)
}

/// Puts that white space lacks.
#[tactic(auto, unfolding(crate::specs::Telling::tight_cause))]
fn put_tight_cause(text: &mut Text, file: &[u8], offset: usize) -> Result<(), AllocError>
    ensures { OnOk result (text.new ≡ text.old ++ tight_cause file.now offset) }
{
    text.put(SPACE_LACKS)?;
    put_found(text, file, offset)
}

/// Puts that the group has ended.
#[tactic(auto, unfolding(crate::specs::Telling::behind_cause))]
fn put_behind_cause(text: &mut Text, file: &[u8], offset: usize) -> Result<(), AllocError>
    ensures { OnOk result (text.new ≡ text.old ++ behind_cause file.now offset) }
{
    put_found(text, file, offset)?;
    text.put(STANDS_BEHIND)
}

/// Puts that the text ends too early.
#[tactic(auto, unfolding(crate::specs::Telling::end_cause))]
fn put_end_cause(text: &mut Text, file: &[u8], start: usize) -> Result<(), AllocError>
    ensures { OnOk result (text.new ≡ text.old ++ end_cause file.now start) }
{
    text.put(TEXT_ENDS)?;
    put_bracket_words(text, file, start)?;
    text.put(b" is open")
}

/// Puts that an object ends too early.
#[tactic(auto, unfolding(crate::specs::Telling::unclosed_cause))]
fn put_unclosed_cause(
    text: &mut Text,
    file: &[u8],
    offset: usize,
    start: usize,
) -> Result<(), AllocError>
    ensures { OnOk result (text.new ≡ text.old ++ unclosed_cause file.now offset start) }
{
    put_found(text, file, offset)?;
    text.put(STANDS_HERE)?;
    put_bracket_words(text, file, start)?;
    text.put(b" is open")
}

/// Puts that the class does not take the field.
#[tactic(auto, unfolding(crate::specs::Telling::not_taken_cause))]
fn put_not_taken_cause(
    text: &mut Text,
    class: Class,
    attribute: Attribute,
) -> Result<(), AllocError>
    ensures { OnOk result (text.new ≡ text.old ++ not_taken_cause class attribute) }
{
    put_keyword_written(text, attribute.word())?;
    text.put(IS_NO_FIELD)?;
    put_keyword_written(text, class.word())
}

/// Puts that the field stands there already.
#[tactic(auto, unfolding(crate::specs::Telling::twice_cause))]
fn put_twice_cause(text: &mut Text, class: Class, attribute: Attribute) -> Result<(), AllocError>
    ensures { OnOk result (text.new ≡ text.old ++ twice_cause class attribute) }
{
    put_keyword_written(text, attribute.word())?;
    text.put(STANDS_IN_THIS)?;
    text.put(class.word())?;
    text.put(b" already")
}

/// Puts which field lacks.
#[tactic(auto, unfolding(crate::specs::Telling::lacks_cause))]
fn put_lacks_cause(text: &mut Text, class: Class, attribute: Attribute) -> Result<(), AllocError>
    ensures { OnOk result (text.new ≡ text.old ++ lacks_cause class attribute) }
{
    text.put(b"this ")?;
    text.put(class.word())?;
    text.put(ENDS_WITHOUT)?;
    put_keyword_written(text, attribute.word())
}

/// Puts what is found and what is wanted.
#[tactic(auto, unfolding(crate::specs::Telling::unwanted_cause))]
fn put_unwanted_cause(
    text: &mut Text,
    file: &[u8],
    offset: usize,
    goal: Goal,
) -> Result<(), AllocError>
    ensures { OnOk result (text.new ≡ text.old ++ unwanted_cause file.now offset goal) }
{
    put_found(text, file, offset)?;
    text.put(IN_PLACE_OF)?;
    put_wanted(text, goal)
}

/// Puts between which limits a value lies that is found outside.
#[tactic(auto, unfolding(crate::specs::Telling::range_cause))]
fn put_range_cause(
    text: &mut Text,
    file: &[u8],
    offset: usize,
    goal: Goal,
) -> Result<(), AllocError>
    ensures { OnOk result (text.new ≡ text.old ++ range_cause file.now offset goal) }
{
    put_found(text, file, offset)?;
    text.put(b" is not ")?;
    text.put(limits_words(limits_of(goal)))
}

/// Puts what was found, and what is wanted.
#[tactic(auto, unfolding(crate::specs::Telling::cause))]
pub fn put_cause(
    text: &mut Text,
    file: &[u8],
    offset: usize,
    misread: Misread,
) -> Result<(), AllocError>
    ensures { OnOk result (text.new ≡ text.old ++ cause file.now offset misread) }
{
    match misread {
        Misread::Slip(slip) => put_slip_cause(text, file, offset, slip),
        Misread::NoColon(name) => put_no_colon_cause(text, name),
        Misread::Unknown(_, _) => put_unknown_cause(text, file, offset),
        Misread::BehindString => put_behind_string_cause(text, file, offset),
        Misread::HoldsKeyword(name) => put_holds_cause(text, name),
        Misread::KeyName(_) => put_key_cause(text, file, offset),
        Misread::Tight => put_tight_cause(text, file, offset),
        Misread::Behind => put_behind_cause(text, file, offset),
        Misread::TextEnds(start) => put_end_cause(text, file, start),
        Misread::Unclosed(start) => put_unclosed_cause(text, file, offset, start),
        Misread::NotTaken(class, attribute) => put_not_taken_cause(text, class, attribute),
        Misread::Twice(class, attribute) => put_twice_cause(text, class, attribute),
        Misread::Lacks(class, attribute) => put_lacks_cause(text, class, attribute),
        Misread::BareName => text.put(BARE_NAME_CAUSE),
        Misread::Unwanted(goal, _) => put_unwanted_cause(text, file, offset, goal),
        Misread::OutOfRange(goal) => put_range_cause(text, file, offset, goal),
    }
}
