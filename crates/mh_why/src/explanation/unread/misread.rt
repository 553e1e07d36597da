//! What is told of a file that is not read: of a text the case that was met, and of another file what its number stands for.
ghost use Rattle.std.specs.Prelude.{◌≡◌, ◌++◌, IfOk, OnOk};
ghost use Rattle.mh_why.specs.Advice.{advice, files as files_lem};
ghost use Rattle.mh_why.specs.Misreading as spec;
ghost use Rattle.mh_why.specs.Misreading.{case_or, case_text, file_advice, named_case_or};

use crate::explanation::advice::{files, put_advice};
use crate::explanation::place::spot::Spot;
use crate::explanation::words::number_in;
use crate::files::shown::{Source, source_named};
use crate::wrap::put_paragraph;
use mh_misread::{Misread, misread_of, put_cause, put_mend};
use mh_told::text::Text;
use std::alloc::{AllocError, Global};

/// Puts the cause and the mend of a file that is not read: of a text by the case, and else by the number.
#[tactic(auto, unfolding(crate::specs::Misreading::file_advice))]
pub(crate) fn put_file_advice(
    alloc: Global,
    text: &mut Text,
    sources: &[Source<'_>],
    spot: &Spot<'_>,
) -> Result<(), AllocError>
    ensures { OnOk result (text.new ≡ text.old ++ file_advice sources.now spot.now) }
{
    match (number_in(spot.index()), number_in(spot.object())) {
        (Some(offset), Some(number)) => {
            put_named_case(alloc, text, sources, spot, offset as usize, number)
        }
        _ => put_advice(alloc, text, files(), spot.object()),
    }
}

/// The same of a byte of the file, by the number of the refusal.
fn put_named_case(
    alloc: Global,
    text: &mut Text,
    sources: &[Source<'_>],
    spot: &Spot<'_>,
    offset: usize,
    number: u32,
) -> Result<(), AllocError>
    ensures { let other = advice files_lem spot.now.object in
        OnOk result (text.new ≡ text.old ++ named_case_or other sources.now spot.now.group offset number) }
{
    match source_named(sources, spot.group()) {
        Some(source) => put_case_or(alloc, text, source, offset, number, spot.object()),
        None => put_advice(alloc, text, files(), spot.object()),
    }
}

fn put_case_or(
    alloc: Global,
    text: &mut Text,
    source: &Source<'_>,
    offset: usize,
    number: u32,
    word: &[u8],
) -> Result<(), AllocError>
    ensures { let other = advice files_lem word.now in
        OnOk result (text.new ≡ text.old ++ case_or other offset number source.now) }
{
    match case_in(alloc, source, offset, number)? {
        Some(misread) => put_case(alloc, text, source.text(), offset, misread),
        None => put_advice(alloc, text, files(), word),
    }
}

/// The case, if the file is a text and one is known.
fn case_in(
    alloc: Global,
    source: &Source<'_>,
    offset: usize,
    number: u32,
) -> Result<Option<Misread>, AllocError>
    ensures { IfOk result (λ case. case ≡ spec.case_in source.now offset number) }
{
    if source.is_written() {
        misread_of(alloc, source.text(), offset, number)
    } else {
        Ok(None)
    }
}

#[tactic(auto, unfolding(crate::specs::Misreading::case_text))]
pub(crate) fn put_case(
    alloc: Global,
    text: &mut Text,
    file: &[u8],
    offset: usize,
    misread: Misread,
) -> Result<(), AllocError>
    ensures { OnOk result (text.new ≡ text.old ++ case_text file.now offset misread) }
{
    let mut cause = Text::new(alloc);
    cause.put(b"  Cause: ")?;
    put_cause(&mut cause, file, offset, misread)?;
    cause.put(b".")?;
    put_paragraph(alloc, text, cause.as_slice())?;
    let mut mend = Text::new(alloc);
    mend.put(b"  Mend: ")?;
    put_mend(&mut mend, file, offset, misread)?;
    mend.put(b".")?;
    put_paragraph(alloc, text, mend.as_slice())
}
