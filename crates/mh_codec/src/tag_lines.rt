//! All lines that name tags, one after the other.
ghost use Rattle.std.specs.Prelude.{◌≡◌, ◌<◌, ◌==◌, ◌∷◌, [], IfOk, IfErr, IfSome, OnOk, None, length};
ghost use Rattle.std.specs.List.{list_any, position};
ghost use Rattle.std.specs.Option.{option_copied};
ghost use Rattle.mh_codec.specs.TagLines.{lines, lines_behind, is_for, all_named, first_wrong, IsWrongAt};

use crate::tag_error::TagError;
use crate::tag_line::{NamedTag, TagContext, TagLine, line_of};
use std::alloc::Global;

/// What the lines name, in order.
pub(crate) fn read_lines(alloc: Global, bytes: &[u8]) -> Result<Vec<NamedTag>, TagError>
    ensures good { OnOk result (first_wrong 1 [] (lines bytes.now) ≡ None) }
    ensures found { IfOk result (λ named. named.items ≡ all_named (lines bytes.now)) }
    ensures wrong { IfErr result (IsWrongAt bytes.now) }
{
    let mut named = Vec::new(alloc);
    let mut rest = Some(bytes);
    let mut number = 0;
    while let Some(text) = rest {
        let (line, behind) = first_line(text);
        number += 1;
        match line_of(line) {
            TagLine::Skipped => {}
            TagLine::Names(one) if !is_named(named.as_slice(), one.context, one.number) => {
                named.push(one)?;
            }
            _ => return Err(TagError::Line(number)),
        }
        rest = behind;
    }
    Ok(named)
}

/// Whether this number of the context has a tag.
fn is_named(named: &[NamedTag], context: TagContext, number: u32) -> bool
    ensures { result ≡ list_any (is_for context number) named.now }
{
    named.iter().any(|one| is_for(context, number, *one))
}

/// Whether this is the tag of that number of the context.
pub(crate) fn is_for(context: TagContext, number: u32, named: NamedTag) -> bool
    ensures { result ≡ is_for context number named }
{
    named.context.number() == context.number() && named.number == number
}

/// The first line, and what stands behind its end, if it has one.
fn first_line(text: &[u8]) -> (&[u8], Option<&[u8]>)
    ensures whole { lines text.now ≡ result.0.now ∷ lines_behind (option_copied result.1) }
    ensures shorter { IfSome result.1 (λ behind. length behind.now < length text.now) }
{
    match line_end(text) {
        None => (text, None),
        Some(at) => (&text[..at], Some(&text[at + 1..])),
    }
}

fn line_end(text: &[u8]) -> Option<usize>
    ensures { result ≡ position (λ b. b == 10) text.now }
{
    text.iter().position(|b| *b == b'\n')
}
