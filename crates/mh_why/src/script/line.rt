//! What is told of a line of a script that says nothing: the cause, by the command at its head, and the
//! mend.
ghost use Rattle.std.specs.Prelude.{◌≡◌, ◌++◌, OnOk};
ghost use Rattle.std.specs.Option.{option_copied, option_map};
ghost use Rattle.mh_why.specs.Advice.{cells};
ghost use Rattle.mh_why.specs.ScriptTexts.{cause_text, command_mend, fault_text, fault_words, form_text, key_mend, mend_text, missing_scene, near_form_text, near_key_text, nearest_text, numbered_line, own_mend, return_text, script_line, script_told, whole_text, word_of};

use crate::explanation::advice::{cell, put_advice, readings, row_with};
use crate::explanation::unread::missing::put_missing;
use crate::explanation::words::{behind_first, first_word, number_in};
use crate::files::named_file::NamedFile;
use crate::files::shown::Source;
use crate::place::without_terminator;
use crate::script::fault::{LineFault, line_fault};
use crate::script::forms::{forms, near_form, near_key};
use crate::wrap::{put_paragraph, put_sentence};
use bstr::ByteSlice;
use mh_script::key_name;
use mh_told::text::Text;
use std::alloc::{AllocError, Global};

// What is wrong with the words in front.
pub const IN_FRONT: &[u8] = b"has a space in front of it";

pub const IS_NO_COMMAND: &[u8] = b"is no command";

pub const NOT_ALONE: &[u8] = b"has something behind it, if only a space";

pub const HAS_NOTHING: &[u8] = b"has nothing behind it";

pub const HAS_SPACE: &[u8] = b"has a space too much behind it";

pub const IS_NO_KEY: &[u8] = b"is no key";

pub const IS_NO_NUMBER: &[u8] = b"is no number in decimal digits";

pub const IS_TOO_LARGE: &[u8] = b"is too large";

pub const IS_NO_PATH: &[u8] = b"is no path";

pub const NO_OCTETS: &[u8] = b"has no octets behind it";

pub const ODD_DIGITS: &[u8] = b"has an odd number of hexadecimal digits behind it";

pub const NO_HEX: &[u8] = b"has something else than hexadecimal digits behind it";

pub const IS_NO_GROUP: &[u8] = b"is no group of the service";

pub const NO_SCENE: &[u8] = b"has octets behind it that write no group";

pub const SAYS_SOMETHING: &[u8] =
    b"stands in a line that can be played: the output is of another script";

pub const ENDS_IN_RETURN: &[u8] =
    b"  Cause: the line ends with a carriage return, which is part of no command.";

// Mends.
pub const MEND_WRITE: &[u8] = b"  Mend: write ";

pub const ENDS_IN_FEED: &[u8] = b"  Mend: end each line with a line feed alone.";

pub const BEGINS_WITH_COMMAND: &[u8] = b"  Mend: begin the line with the command.";

pub const ANY_COMMAND: &[u8] =
    b"  Mend: begin the line with `key`, `tick`, `stream`, `engine`, `file`, `scene`, `step`, `run` or `show`; a comment begins with `#`.";

/// Puts what is told of the line of the script that a word numbers; where it is not known, of all that
/// can be wrong.
pub(crate) fn put_script_told(
    alloc: Global,
    text: &mut Text,
    sources: &[Source<'_>],
    script: Option<&NamedFile<'_>>,
    word: &[u8],
) -> Result<(), AllocError>
    ensures { OnOk result (text.new ≡ text.old ++ script_told sources.now (option_copied script.entry) word.now) }
{
    match script_line(script, word) {
        Some(line) => put_whole(alloc, text, sources, line),
        None => put_advice(alloc, text, readings(), b"script"),
    }
}

/// The line of the script that a word numbers, if both are known.
fn script_line<'a>(script: Option<&NamedFile<'a>>, word: &[u8]) -> Option<&'a [u8]>
    ensures { option_map (λ line. line.now) result ≡ script_line (option_copied script.entry) word.now }
{
    match script {
        Some(file) => numbered_line(file.bytes, number_in(word)?),
        None => None,
    }
}

/// The line with this number, from 1 on.
fn numbered_line(bytes: &[u8], number: u32) -> Option<&[u8]>
    ensures { option_map (λ line. line.now) result ≡ numbered_line bytes.now number }
{
    let mut left = number.checked_sub(1)?;
    for line in bytes.lines_with_terminator() {
        if left == 0 {
            return Some(line);
        }
        left -= 1;
    }
    None
}

/// Puts what is told of a line with its end.
fn put_whole(
    alloc: Global,
    text: &mut Text,
    sources: &[Source<'_>],
    whole: &[u8],
) -> Result<(), AllocError>
    ensures { OnOk result (text.new ≡ text.old ++ whole_text sources.now whole.now) }
{
    let line = without_terminator(whole);
    if whole.len().saturating_sub(line.len()) == 2 {
        return put_return(alloc, text);
    }
    let fault = line_fault(alloc, line)?;
    put_fault(alloc, text, sources, line, fault)
}

#[tactic(auto, unfolding(crate::specs::ScriptTexts::return_text))]
fn put_return(alloc: Global, text: &mut Text) -> Result<(), AllocError>
    ensures { OnOk result (text.new ≡ text.old ++ return_text) }
{
    put_paragraph(alloc, text, ENDS_IN_RETURN)?;
    put_paragraph(alloc, text, ENDS_IN_FEED)
}

#[tactic(auto, unfolding(crate::specs::ScriptTexts::fault_text))]
fn put_fault(
    alloc: Global,
    text: &mut Text,
    sources: &[Source<'_>],
    line: &[u8],
    fault: LineFault,
) -> Result<(), AllocError>
    ensures { OnOk result (text.new ≡ text.old ++ fault_text sources.now line.now fault) }
{
    put_cause(alloc, text, fault, line)?;
    put_missing_scene(alloc, text, sources, fault, line)?;
    put_mend(alloc, text, fault, line)
}

#[tactic(auto, unfolding(crate::specs::ScriptTexts::cause_text))]
fn put_cause(
    alloc: Global,
    text: &mut Text,
    fault: LineFault,
    line: &[u8],
) -> Result<(), AllocError>
    ensures { OnOk result (text.new ≡ text.old ++ cause_text fault line.now) }
{
    let mut sentence = Text::new(alloc);
    sentence.put(b"  Cause: `")?;
    sentence.put(word_of(fault, line))?;
    sentence.put(b"` ")?;
    sentence.put(fault_words(fault))?;
    sentence.put(b".")?;
    put_paragraph(alloc, text, sentence.as_slice())
}

/// The words of which the cause is told: the command, what stands behind it, or the name in that.
fn word_of(fault: LineFault, line: &[u8]) -> &[u8]
    ensures { result.now ≡ word_of fault line.now }
{
    match fault {
        LineFault::SpaceInFront
        | LineFault::NoKey
        | LineFault::NoNumber
        | LineFault::TooLarge
        | LineFault::NoGroup => behind_first(line),
        LineFault::NoPath
        | LineFault::NoOctets
        | LineFault::OddDigits
        | LineFault::NoHex
        | LineFault::NoScene => first_word(behind_first(line)),
        _ => first_word(line),
    }
}

#[tactic(auto, unfolding(crate::specs::ScriptTexts::fault_words))]
fn fault_words(fault: LineFault) -> &'static [u8]
    ensures { result.now ≡ fault_words fault }
{
    match fault {
        LineFault::SpaceInFront => IN_FRONT,
        LineFault::NoCommand => IS_NO_COMMAND,
        LineFault::NotAlone => NOT_ALONE,
        LineFault::NothingBehind => HAS_NOTHING,
        LineFault::SpaceTooMuch => HAS_SPACE,
        LineFault::NoKey => IS_NO_KEY,
        LineFault::NoNumber => IS_NO_NUMBER,
        LineFault::TooLarge => IS_TOO_LARGE,
        LineFault::NoPath => IS_NO_PATH,
        LineFault::NoOctets => NO_OCTETS,
        LineFault::OddDigits => ODD_DIGITS,
        LineFault::NoHex => NO_HEX,
        LineFault::NoGroup => IS_NO_GROUP,
        LineFault::NoScene => NO_SCENE,
        LineFault::Other => SAYS_SOMETHING,
    }
}

/// Puts why there is no group of the name.
fn put_missing_scene(
    alloc: Global,
    text: &mut Text,
    sources: &[Source<'_>],
    fault: LineFault,
    line: &[u8],
) -> Result<(), AllocError>
    ensures { OnOk result (text.new ≡ text.old ++ missing_scene sources.now fault line.now) }
{
    match fault {
        LineFault::NoGroup => put_missing(alloc, text, sources, behind_first(line)),
        _ => Ok(()),
    }
}

fn put_mend(alloc: Global, text: &mut Text, fault: LineFault, line: &[u8]) -> Result<(), AllocError>
    ensures { OnOk result (text.new ≡ text.old ++ mend_text fault line.now) }
{
    match fault {
        LineFault::SpaceInFront => put_paragraph(alloc, text, BEGINS_WITH_COMMAND),
        LineFault::NoCommand => put_command_mend(alloc, text, first_word(line)),
        LineFault::NoKey => put_key_mend(alloc, text, line),
        LineFault::Other => Ok(()),
        _ => put_own_mend(alloc, text, line),
    }
}

/// Puts the form of the command that is nearest, or all commands.
fn put_command_mend(alloc: Global, text: &mut Text, word: &[u8]) -> Result<(), AllocError>
    ensures { OnOk result (text.new ≡ text.old ++ command_mend word.now) }
{
    match near_form(word) {
        Some(row) => put_near_form(alloc, text, row),
        None => put_paragraph(alloc, text, ANY_COMMAND),
    }
}

#[tactic(auto, unfolding(crate::specs::ScriptTexts::near_form_text))]
fn put_near_form(alloc: Global, text: &mut Text, row: &[&[u8]; 3]) -> Result<(), AllocError>
    ensures { OnOk result (text.new ≡ text.old ++ near_form_text (cells row.now)) }
{
    put_nearest(alloc, text, cell(row, 0))?;
    put_form(alloc, text, row)
}

#[tactic(auto, unfolding(crate::specs::ScriptTexts::key_mend))]
fn put_key_mend(alloc: Global, text: &mut Text, line: &[u8]) -> Result<(), AllocError>
    ensures { OnOk result (text.new ≡ text.old ++ key_mend line.now) }
{
    put_near_key(alloc, text, behind_first(line))?;
    put_own_mend(alloc, text, line)
}

/// Puts the key that is called nearly so, if there is one.
fn put_near_key(alloc: Global, text: &mut Text, word: &[u8]) -> Result<(), AllocError>
    ensures { OnOk result (text.new ≡ text.old ++ near_key_text word.now) }
{
    match near_key(word) {
        Some(key) => put_nearest(alloc, text, key_name(key)),
        None => Ok(()),
    }
}

#[tactic(auto, unfolding(crate::specs::ScriptTexts::nearest_text))]
fn put_nearest(alloc: Global, text: &mut Text, word: &[u8]) -> Result<(), AllocError>
    ensures { OnOk result (text.new ≡ text.old ++ nearest_text word.now) }
{
    put_sentence(alloc, text, b"  The nearest is `", word, b"`.")
}

/// Puts the form of the command that stands there.
fn put_own_mend(alloc: Global, text: &mut Text, line: &[u8]) -> Result<(), AllocError>
    ensures { OnOk result (text.new ≡ text.old ++ own_mend line.now) }
{
    match row_with(forms(), first_word(line)) {
        Some(row) => put_form(alloc, text, row),
        None => Ok(()),
    }
}

#[tactic(auto, unfolding(crate::specs::ScriptTexts::form_text))]
fn put_form(alloc: Global, text: &mut Text, row: &[&[u8]; 3]) -> Result<(), AllocError>
    ensures { OnOk result (text.new ≡ text.old ++ form_text (cells row.now)) }
{
    let mut sentence = Text::new(alloc);
    sentence.put(MEND_WRITE)?;
    sentence.put(cell(row, 1))?;
    sentence.put(b", where ")?;
    sentence.put(cell(row, 2))?;
    sentence.put(b".")?;
    put_paragraph(alloc, text, sentence.as_slice())
}
