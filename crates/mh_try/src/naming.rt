//! The lines of a trace that name an object.
//!
//! Promise: they are those in which its group and its number stand as words, one behind the other.
ghost use Rattle.std.specs.Prelude.{◌≡◌, ◌++◌, IfOk, OnOk, drop, length};
ghost use Rattle.std.specs.Option.{option_copied};
ghost use Rattle.mh_trace.specs.declared.form.Form.TheVariants as form;
ghost use Rattle.mh_try.specs.Naming as spec;

use bstr::ByteSlice;
use mh_base::ObjRef;
use mh_told::text::Text;
use mh_trace::json::put_escaped;
use mh_trace::{Form, put_ref, shown_ref};
use std::alloc::{AllocError, Global};

/// The lines of the text that name this object; all of them where none is asked for.
pub(crate) fn narrowed(
    alloc: Global,
    form: Form,
    only: Option<&ObjRef>,
    text: Text,
) -> Result<Text, AllocError>
    ensures { IfOk result (λ lines. lines ≡ spec.narrowed form (option_copied only.entry) text) }
{
    match only {
        None => Ok(text),
        Some(object) => lines_naming(alloc, form, object, &text),
    }
}

fn lines_naming(alloc: Global, form: Form, object: &ObjRef, text: &Text) -> Result<Text, AllocError>
    ensures { IfOk result (λ lines. lines
        ≡ spec.lines_naming (spec.words_for form 32 object.now) (spec.words_for form 34 object.now) text.now) }
{
    let words = words_for(alloc, form, 32, object)?;
    let others = words_for(alloc, form, 34, object)?;
    let mut lines = Text::new(alloc);
    put_named(
        &mut lines,
        words.as_slice(),
        others.as_slice(),
        text.as_slice(),
    )?;
    Ok(lines)
}

/// Puts the lines of these bytes in which these words stand, or those.
fn put_named(lines: &mut Text, words: &[u8], others: &[u8], bytes: &[u8]) -> Result<(), AllocError>
    ensures { OnOk result (lines.new ≡ lines.old ++ spec.lines_naming words.now others.now bytes.now) }
{
    for line in bytes.lines_with_terminator() {
        put_if_named(lines, words, others, line)?;
    }
    Ok(())
}

fn put_if_named(
    lines: &mut Text,
    words: &[u8],
    others: &[u8],
    line: &[u8],
) -> Result<(), AllocError>
    ensures { OnOk result (lines.new ≡ lines.old ++ spec.line_if_named words.now others.now line.now) }
{
    if names_one(words, others, line) {
        return lines.put(line);
    }
    Ok(())
}

fn names_one(words: &[u8], others: &[u8], line: &[u8]) -> bool
    ensures { result ≡ spec.names_one words.now others.now line.now }
{
    names(words, line) || names(others, line)
}

/// How a line names an object.
fn words_for(alloc: Global, form: Form, mark: u8, object: &ObjRef) -> Result<Text, AllocError>
    ensures { IfOk result (λ words. words ≡ spec.words_for form mark object.now) }
{
    match form {
        Form::Text => plain_words(alloc, object),
        Form::Json => escaped_words(alloc, mark, object),
    }
}

fn plain_words(alloc: Global, object: &ObjRef) -> Result<Text, AllocError>
    ensures { IfOk result (λ words. words ≡ spec.words_for form.Text 32 object.now) }
{
    let mut words = Text::new(alloc);
    words.put_byte(32)?;
    put_ref(&mut words, object)?;
    Ok(words)
}

fn escaped_words(alloc: Global, mark: u8, object: &ObjRef) -> Result<Text, AllocError>
    ensures { IfOk result (λ words. words ≡ spec.words_for form.Json mark object.now) }
{
    let shown = shown_ref(alloc, object)?;
    let mut words = Text::new(alloc);
    words.put_byte(mark)?;
    put_escaped(&mut words, shown.as_slice())?;
    Ok(words)
}

/// Whether the words stand somewhere in the line.
#[tactic(auto, unfolding(crate::specs::Naming::names))]
fn names(words: &[u8], line: &[u8]) -> bool
    ensures { result ≡ spec.names words.now line.now }
{
    let mut rest = line;
    while let [_, behind @ ..] = rest {
        if stand_first(words, rest) {
            return true;
        }
        rest = behind;
    }
    false
}

fn stand_first(words: &[u8], bytes: &[u8]) -> bool
    ensures { result ≡ spec.stand_first words.now bytes.now }
{
    begins(words, bytes) && !begins_with_digit(behind(words, bytes))
}

fn begins(words: &[u8], bytes: &[u8]) -> bool
    ensures { result ≡ spec.begins words.now bytes.now }
{
    bytes.starts_with(words)
}

fn behind<'a>(words: &[u8], bytes: &'a [u8]) -> &'a [u8]
    ensures { result.now ≡ drop (length words.now) bytes.now }
{
    bytes.get(words.len()..).unwrap_or(&[])
}

fn begins_with_digit(bytes: &[u8]) -> bool
    ensures { result ≡ spec.begins_with_digit bytes.now }
{
    match bytes {
        [first, ..] => first.is_ascii_digit(),
        [] => false,
    }
}
