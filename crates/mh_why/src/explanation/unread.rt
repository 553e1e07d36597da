//! What is told of the lines on files, groups and scripts that are not taken.

pub(crate) mod further;
pub(crate) mod misread;
pub(crate) mod missing;

ghost use Rattle.std.specs.Prelude.{◌≡◌, ◌++◌, OnOk, codes};
ghost use Rattle.std.specs.Option.{option_copied};
ghost use Rattle.mh_why.specs.Sources.{shown_line, shown_offset, by_number};
ghost use Rattle.mh_why.specs.Why as spec;
ghost use Rattle.mh_why.specs.Why.{shown_late, shown_script, shown_tags, tag_words};

use crate::explanation::advice::{put_advice, readings, services, tags};
use crate::explanation::ground::Ground;
use crate::explanation::line::{CONTEXTS, IS_BYTE, IS_CONTEXT, IS_LINE, OF_FILE, TOLD_OF};
use crate::explanation::place::put_offset;
use crate::explanation::place::spot::Spot;
use crate::explanation::service::put_service as put_group;
use crate::explanation::unread::further::put_further;
use crate::explanation::unread::misread::put_file_advice;
use crate::explanation::unread::missing::put_missing;
use crate::explanation::words::{behind_first, first_word, number_in};
use crate::files::named_file::{NamedFile, put_numbered_line, put_written_line};
use crate::files::shown::Source;
use crate::numbers::{NO_SCENE, TAG_LINE};
use crate::script::line::put_script_told;
use crate::wrap::{put_paragraph, put_sentence};
use mh_told::text::Text;
use std::alloc::{AllocError, Global};

/// Puts which byte of a file is wrong: the file stands as the group, its number as the object, and
/// the offset as the index.
#[tactic(auto, unfolding(crate::specs::Why::file))]
pub(crate) fn put_file(
    alloc: Global,
    text: &mut Text,
    sources: &[Source<'_>],
    spot: &Spot<'_>,
) -> Result<(), AllocError>
    ensures { OnOk result (text.new ≡ text.old ++ spec.file sources.now spot.now) }
{
    let mut sentence = Text::new(alloc);
    sentence.put(IS_BYTE)?;
    sentence.put(spot.index())?;
    sentence.put(OF_FILE)?;
    sentence.put(spot.group())?;
    sentence.put(b".")?;
    put_paragraph(alloc, text, sentence.as_slice())?;
    put_byte_shown(alloc, text, sources, spot.group(), spot.index())?;
    put_file_advice(alloc, text, sources, spot)?;
    put_further(alloc, text, sources, spot)
}

/// Puts where the byte stands, if the word is a number and it is found.
fn put_byte_shown(
    alloc: Global,
    text: &mut Text,
    sources: &[Source<'_>],
    name: &[u8],
    offset: &[u8],
) -> Result<(), AllocError>
    ensures { OnOk result (text.new ≡ text.old ++ by_number (shown_offset sources.now name.now) offset.now) }
{
    match number_in(offset) {
        Some(number) => put_offset(alloc, text, sources, name, number as usize),
        None => Ok(()),
    }
}

/// Puts of which group, or of which line of the file of late scenes, it is told, by the number in front, and where
/// that stands.
#[tactic(auto, unfolding(crate::specs::Why::service))]
pub(crate) fn put_service(
    alloc: Global,
    text: &mut Text,
    ground: &Ground<'_>,
    words: &[u8],
) -> Result<(), AllocError>
    ensures { OnOk result (text.new ≡ text.old ++ spec.service ground.now words.now) }
{
    let number = first_word(words);
    let group = behind_first(words);
    put_sentence(alloc, text, TOLD_OF, group, b".")?;
    put_group(alloc, text, ground.sources, number, group)?;
    put_late_shown(alloc, text, ground.late, number, group)?;
    put_missing(alloc, text, ground.sources, group)?;
    put_advice(alloc, text, services(), number)
}

/// Puts the line of the file that names late scenes, if it is told of one and the file is known.
fn put_late_shown(
    alloc: Global,
    text: &mut Text,
    late: Option<&NamedFile<'_>>,
    number: &[u8],
    line: &[u8],
) -> Result<(), AllocError>
    ensures { OnOk result (text.new ≡ text.old ++ shown_late (option_copied late.entry) number.now line.now) }
{
    match late {
        Some(file) if number == NO_SCENE => put_written_line(alloc, text, file, line),
        _ => Ok(()),
    }
}

/// Puts which line of the file of tags is wrong, or in which context a tag stands twice.
#[tactic(auto, unfolding(crate::specs::Why::tagged))]
pub(crate) fn put_tags(
    alloc: Global,
    text: &mut Text,
    file: Option<&NamedFile<'_>>,
    words: &[u8],
) -> Result<(), AllocError>
    ensures { OnOk result (text.new ≡ text.old ++ spec.tagged (option_copied file.entry) words.now) }
{
    let number = first_word(words);
    let place = behind_first(words);
    put_tag_words(alloc, text, number, place)?;
    put_tag_line(alloc, text, file, number, place)?;
    put_advice(alloc, text, tags(), number)
}

fn put_tag_words(
    alloc: Global,
    text: &mut Text,
    number: &[u8],
    place: &[u8],
) -> Result<(), AllocError>
    ensures { OnOk result (text.new ≡ text.old ++ tag_words number.now place.now) }
{
    if number == TAG_LINE {
        put_sentence(alloc, text, IS_LINE, place, b" of the file of tags.")
    } else {
        put_sentence(alloc, text, IS_CONTEXT, place, CONTEXTS)
    }
}

/// Puts the line of the file of tags, if it is told of one, the file is known and the line is found.
fn put_tag_line(
    alloc: Global,
    text: &mut Text,
    file: Option<&NamedFile<'_>>,
    number: &[u8],
    place: &[u8],
) -> Result<(), AllocError>
    ensures { OnOk result (text.new ≡ text.old ++ shown_tags (option_copied file.entry) number.now place.now) }
{
    match file {
        Some(file) if number == TAG_LINE => put_line_by(alloc, text, file, place),
        _ => Ok(()),
    }
}

/// Puts the line that the word numbers, if it is found.
fn put_line_by(
    alloc: Global,
    text: &mut Text,
    file: &NamedFile<'_>,
    word: &[u8],
) -> Result<(), AllocError>
    ensures { OnOk result (text.new ≡ text.old ++ by_number (shown_line file.now) word.now) }
{
    match number_in(word) {
        Some(number) => put_numbered_line(alloc, text, file, number),
        None => Ok(()),
    }
}

/// Puts which line of the script is wrong, and why.
#[tactic(auto, unfolding(crate::specs::Why::script))]
pub(crate) fn put_script(
    alloc: Global,
    text: &mut Text,
    sources: &[Source<'_>],
    script: Option<&NamedFile<'_>>,
    words: &[u8],
) -> Result<(), AllocError>
    ensures { OnOk result (text.new ≡ text.old ++ spec.script sources.now (option_copied script.entry) words.now) }
{
    put_sentence(alloc, text, IS_LINE, words, b" of the script.")?;
    put_script_shown(alloc, text, script, words)?;
    put_script_told(alloc, text, sources, script, words)
}

/// Puts the line of the script, if that is known, the word is a number and the line is found.
fn put_script_shown(
    alloc: Global,
    text: &mut Text,
    script: Option<&NamedFile<'_>>,
    word: &[u8],
) -> Result<(), AllocError>
    ensures { OnOk result (text.new ≡ text.old ++ shown_script (option_copied script.entry) word.now) }
{
    match script {
        Some(script) => put_line_by(alloc, text, script, word),
        None => Ok(()),
    }
}

/// Puts what cannot be read.
#[tactic(auto, unfolding(crate::specs::Why::unread))]
pub(crate) fn put_unread(alloc: Global, text: &mut Text, words: &[u8]) -> Result<(), AllocError>
    ensures { OnOk result (text.new ≡ text.old ++ spec.unread words.now) }
{
    put_sentence(alloc, text, TOLD_OF, words, b".")?;
    put_advice(alloc, text, readings(), b"read")
}
