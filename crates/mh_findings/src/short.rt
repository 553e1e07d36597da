//! Findings in a line each, as compilers print them.
ghost use Rattle.std.specs.Prelude.{◌≡◌, ◌++◌, IfOk, OnOk};
ghost use Rattle.mh_findings.specs.Short.{EachHasALine, ends_control, is_control, short_line, short_words, tame_byte, tamed};

use crate::finding::Finding;
use crate::message::{put_message, put_title};
use mh_told::text::Text;
use std::alloc::{AllocError, Global};

/// There are as many lines as findings, whatever stands in them.
pub fn each_has_a_line()
    ensures { EachHasALine }
{}

/// Puts the line of a finding.
#[tactic(auto, unfolding(crate::specs::Short::short_line))]
pub(crate) fn put_short(alloc: Global, text: &mut Text, finding: &Finding) -> Result<(), AllocError>
    ensures { OnOk result (text.new ≡ text.old ++ short_line finding.now) }
{
    let words = short_words(alloc, finding)?;
    put_tamed(text, words.as_slice())?;
    text.put(b"\n")
}

/// The file, the line and the column, the grade and the rule, and what is told.
#[tactic(auto, unfolding(crate::specs::Short::short_words))]
fn short_words(alloc: Global, finding: &Finding) -> Result<Text, AllocError>
    ensures { IfOk result (λ text. text ≡ short_words finding.now) }
{
    let mut text = Text::new(alloc);
    text.put(finding.at.file.as_bytes())?;
    text.put(b":")?;
    text.put_number(finding.at.span.start.line as u64)?;
    text.put(b":")?;
    text.put_number(finding.at.span.start.column as u64)?;
    text.put(b": ")?;
    put_title(&mut text, finding)?;
    text.put(b": ")?;
    put_message(&mut text, finding)?;
    Ok(text)
}

/// Puts a text with a space for each control character.
#[tactic(auto, unfolding(crate::specs::Short::tamed_behind))]
pub(crate) fn put_tamed(text: &mut Text, bytes: &[u8]) -> Result<(), AllocError>
    ensures { OnOk result (text.new ≡ text.old ++ tamed bytes.now) }
{
    let mut before = 0;
    for byte in bytes {
        text.put_byte(tame_byte(before, *byte))?;
        before = *byte;
    }
    Ok(())
}

/// What stands for a byte behind another.
#[tactic(auto, unfolding(crate::specs::Short::tame_byte))]
fn tame_byte(before: u8, byte: u8) -> u8
    ensures { result ≡ tame_byte before byte }
{
    if is_control(byte) {
        b' '
    } else if ends_control(before, byte) {
        0xA0
    } else {
        byte
    }
}

fn is_control(byte: u8) -> bool
    ensures { result ≡ is_control byte }
{
    byte < 32 || byte == 127
}

fn ends_control(before: u8, byte: u8) -> bool
    ensures { result ≡ ends_control before byte }
{
    before == 0xC2 && 128 <= byte && byte < 160
}
