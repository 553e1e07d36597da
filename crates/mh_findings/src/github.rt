//! Findings as annotations of a workflow, which its runner shows beside the lines of the files.
ghost use Rattle.std.specs.Prelude.{◌≡◌, ◌++◌, OnOk};
ghost use Rattle.mh_findings.specs.Github.{EachHasAnAnnotation, annotation, level_word};
ghost use Rattle.mh_findings.specs.Github as spec;
ghost use Rattle.mh_findings.specs.Messages.{message, title};

use crate::finding::{Finding, Grade};
use crate::message::{message_of, title_of};
use mh_places::Span;
use mh_told::text::Text;
use std::alloc::{AllocError, Global};

/// An annotation is one line, whatever stands in the finding.
pub fn each_has_an_annotation()
    ensures { EachHasAnAnnotation }
{}

/// Puts the annotation of a finding.
#[tactic(auto, unfolding(crate::specs::Github::annotation))]
pub(crate) fn put_annotation(
    alloc: Global,
    text: &mut Text,
    finding: &Finding,
) -> Result<(), AllocError>
    ensures { OnOk result (text.new ≡ text.old ++ annotation finding.now) }
{
    text.put(b"::")?;
    text.put(level_word(finding.grade))?;
    text.put(b" file=")?;
    put_property(text, finding.at.file.as_bytes())?;
    put_span(text, &finding.at.span)?;
    text.put(b",title=")?;
    put_title(alloc, text, finding)?;
    text.put(b"::")?;
    put_message(alloc, text, finding)?;
    text.put(b"\n")
}

#[tactic(auto, unfolding(crate::specs::Github::level_word))]
fn level_word(grade: Grade) -> &'static [u8]
    ensures { result.now ≡ level_word grade }
{
    match grade {
        Grade::Unread | Grade::Refused | Grade::Fault => b"error",
        Grade::Never => b"warning",
        Grade::Note => b"notice",
    }
}

#[tactic(auto, unfolding(crate::specs::Github::span_words))]
fn put_span(text: &mut Text, span: &Span) -> Result<(), AllocError>
    ensures { OnOk result (text.new ≡ text.old ++ spec.span_words span.now) }
{
    text.put(b",line=")?;
    text.put_number(span.start.line as u64)?;
    text.put(b",endLine=")?;
    text.put_number(span.end.line as u64)?;
    text.put(b",col=")?;
    text.put_number(span.start.column as u64)?;
    text.put(b",endColumn=")?;
    text.put_number(span.end.column as u64)
}

fn put_title(alloc: Global, text: &mut Text, finding: &Finding) -> Result<(), AllocError>
    ensures { OnOk result (text.new ≡ text.old ++ spec.property (title finding.now)) }
{
    let title = title_of(alloc, finding)?;
    put_property(text, title.as_slice())
}

fn put_message(alloc: Global, text: &mut Text, finding: &Finding) -> Result<(), AllocError>
    ensures { OnOk result (text.new ≡ text.old ++ spec.escaped (message finding.now)) }
{
    let message = message_of(alloc, finding)?;
    put_escaped(text, message.as_slice())
}

/// Puts bytes as a message has them.
fn put_escaped(text: &mut Text, bytes: &[u8]) -> Result<(), AllocError>
    ensures { OnOk result (text.new ≡ text.old ++ spec.escaped bytes.now) }
{
    for byte in bytes {
        put_escape(text, *byte)?;
    }
    Ok(())
}

#[tactic(auto, unfolding(crate::specs::Github::escape))]
fn put_escape(text: &mut Text, byte: u8) -> Result<(), AllocError>
    ensures { OnOk result (text.new ≡ text.old ++ spec.escape byte) }
{
    match byte {
        b'%' => text.put(b"%25"),
        b'\r' => text.put(b"%0D"),
        b'\n' => text.put(b"%0A"),
        _ => text.put_byte(byte),
    }
}

/// Puts bytes as a property has them.
fn put_property(text: &mut Text, bytes: &[u8]) -> Result<(), AllocError>
    ensures { OnOk result (text.new ≡ text.old ++ spec.property bytes.now) }
{
    for byte in bytes {
        put_in_property(text, *byte)?;
    }
    Ok(())
}

#[tactic(auto, unfolding(crate::specs::Github::escape_property))]
fn put_in_property(text: &mut Text, byte: u8) -> Result<(), AllocError>
    ensures { OnOk result (text.new ≡ text.old ++ spec.escape_property byte) }
{
    match byte {
        b':' => text.put(b"%3A"),
        b',' => text.put(b"%2C"),
        _ => put_escape(text, byte),
    }
}
