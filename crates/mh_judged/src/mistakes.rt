//! What is found of files that are not read.
//!
//! Promise: each function pushes or answers what the definition of the same matter in `specs/Mistakes` says.
ghost use Rattle.std.specs.Prelude.{◌≡◌, ◌++◌, ◌∷◌, [], map, IfOk, OnOk};
ghost use Rattle.std.specs.Fmt.{decimal};
ghost use Rattle.mh_misread.specs.Resuming.{text_from as text_from_lem};
ghost use Rattle.mh_why.specs.Advice.{files as files_lem};
ghost use Rattle.mh_judged.specs.Advised.{advice_in as advice_in_lem};
ghost use Rattle.mh_judged.specs.Mistakes as spec;

use crate::advice::{Advice, advice_in, advised, found_as};
use crate::sites::site_at;
use crate::spans::token_span;
use mh_base::{GroupName, Seq};
use mh_findings::{Finding, Grade};
use mh_misread::{Misread, Mistake, misread_of, mistakes, put_cause, put_mend, text_from};
use mh_text::begins_group;
use mh_told::text::Text;
use mh_why::explanation::advice::files;
use std::alloc::{AllocError, Global};

/// The most mistakes that are told.
const MOST: usize = 20;

/// Pushes the mistake that is told of the first of these files, those behind it there, and those of the files behind that.
#[tactic(auto, unfolding(crate::specs::Mistakes::from_told))]
pub(crate) fn push_told(
    alloc: Global,
    found: &mut Vec<Finding>,
    folder: &[u8],
    files: &[(GroupName, Vec<u8>)],
    number: u32,
    offset: usize,
) -> Result<(), AllocError>
    ensures { OnOk result (found.new.items ≡ found.old.items ++ spec.from_told folder.now number offset files.now) }
{
    match files {
        [] => Ok(()),
        [file, behind @ ..] => {
            push_mistake(alloc, found, folder, file, &told(number, offset))?;
            push_behind(alloc, found, folder, file, behind)
        }
    }
}

/// Pushes the mistakes behind the first of a file, and those of the files behind it.
fn push_behind(
    alloc: Global,
    found: &mut Vec<Finding>,
    folder: &[u8],
    file: &(GroupName, Vec<u8>),
    behind: &[(GroupName, Vec<u8>)],
) -> Result<(), AllocError>
    ensures { OnOk result (found.new.items ≡ found.old.items ++ spec.behind_told folder.now file.now behind.now) }
{
    let mistakes = mistakes_in(alloc, MOST, file.1.as_slice())?;
    let others = mistakes.as_slice().get(1..).unwrap_or(&[]);
    push_mistakes(alloc, found, folder, file, others)?;
    push_files(
        alloc,
        found,
        folder,
        MOST.saturating_sub(mistakes.len()),
        behind,
    )
}

/// The file of this name and those behind it.
pub(crate) fn from_named<'a>(
    files: &'a [(GroupName, Vec<u8>)],
    name: &[u8],
) -> &'a [(GroupName, Vec<u8>)]
    ensures { result.now ≡ spec.from_named name.now files.now }
{
    let mut left = files;
    while let [file, behind @ ..] = left {
        if file.0.as_bytes() == name {
            return left;
        }
        left = behind;
    }
    left
}

fn told(number: u32, offset: usize) -> Mistake
    ensures { result ≡ spec.told number offset }
{
    Mistake {
        from: 0,
        offset,
        place: offset,
        number,
        next: None,
    }
}

/// The first mistakes of a file, if it is a text, at most so many.
fn mistakes_in(alloc: Global, most: usize, bytes: &[u8]) -> Result<Vec<Mistake>, AllocError>
    ensures { IfOk result (λ found. found.items ≡ spec.mistakes_in most bytes.now) }
{
    if begins_group(bytes) {
        mistakes(alloc, most, bytes)
    } else {
        Ok(Vec::new(alloc))
    }
}

/// Pushes the mistakes of these files, at most so many.
fn push_files(
    alloc: Global,
    found: &mut Vec<Finding>,
    folder: &[u8],
    most: usize,
    behind: &[(GroupName, Vec<u8>)],
) -> Result<(), AllocError>
    ensures { OnOk result (found.new.items ≡ found.old.items ++ spec.of_files folder.now most behind.now) }
{
    let mut most = most;
    let mut left = behind;
    while let [file, more @ ..] = left {
        let mistakes = mistakes_in(alloc, most, file.1.as_slice())?;
        push_mistakes(alloc, found, folder, file, mistakes.as_slice())?;
        most = most.saturating_sub(mistakes.len());
        left = more;
    }
    Ok(())
}

fn push_mistakes(
    alloc: Global,
    found: &mut Vec<Finding>,
    folder: &[u8],
    file: &(GroupName, Vec<u8>),
    mistakes: &[Mistake],
) -> Result<(), AllocError>
    ensures { OnOk result (found.new.items
        ≡ found.old.items ++ map (spec.mistake_finding folder.now file.now) mistakes.now) }
{
    for mistake in mistakes {
        push_mistake(alloc, found, folder, file, mistake)?;
    }
    Ok(())
}

fn push_mistake(
    alloc: Global,
    found: &mut Vec<Finding>,
    folder: &[u8],
    file: &(GroupName, Vec<u8>),
    mistake: &Mistake,
) -> Result<(), AllocError>
    ensures { OnOk result (found.new.items
        ≡ found.old.items ++ spec.mistake_finding folder.now file.now mistake.now ∷ []) }
{
    found.push(mistake_finding(alloc, folder, file, mistake)?)?;
    Ok(())
}

#[tactic(auto, unfolding(crate::specs::Mistakes::mistake_finding))]
fn mistake_finding(
    alloc: Global,
    folder: &[u8],
    file: &(GroupName, Vec<u8>),
    mistake: &Mistake,
) -> Result<Finding, AllocError>
    ensures { IfOk result (λ finding. finding ≡ spec.mistake_finding folder.now file.now mistake.now) }
{
    let bytes = file.1.as_slice();
    let span = token_span(bytes, mistake.place);
    let at = site_at(alloc, folder, file.0.as_bytes(), Some(span))?;
    let advice = mistake_advice(alloc, bytes, mistake)?;
    let rule = number_text(alloc, mistake.number)?;
    found_as(
        alloc,
        Grade::Unread,
        rule.as_slice(),
        at,
        advice,
        Seq::new(alloc),
    )
}

/// A number in figures.
pub(crate) fn number_text(alloc: Global, number: u32) -> Result<Text, AllocError>
    ensures { IfOk result (λ text. text ≡ decimal number) }
{
    let mut text = Text::new(alloc);
    text.put_number(u64::from(number))?;
    Ok(text)
}

#[tactic(auto, unfolding(crate::specs::Mistakes::mistake_advice))]
fn mistake_advice(alloc: Global, bytes: &[u8], mistake: &Mistake) -> Result<Advice, AllocError>
    ensures { IfOk result (λ advice. advice ≡ spec.mistake_advice bytes.now mistake.now) }
{
    let text = text_from(alloc, bytes, mistake.from)?;
    match case_at(alloc, bytes, text.as_slice(), mistake)? {
        Some(case) => case_advised(alloc, text.as_slice(), mistake.offset, case),
        None => number_advice(alloc, mistake.number),
    }
}

/// The case that was met in the text, if one is known.
fn case_at(
    alloc: Global,
    bytes: &[u8],
    text: &[u8],
    mistake: &Mistake,
) -> Result<Option<Misread>, AllocError>
    requires { text.now ≡ text_from_lem bytes.now mistake.now.from }
    ensures { IfOk result (λ case. case ≡ spec.case_at bytes.now mistake.now) }
{
    if begins_group(bytes) {
        misread_of(alloc, text, mistake.offset, mistake.number)
    } else {
        Ok(None)
    }
}

fn case_advised(
    alloc: Global,
    text: &[u8],
    offset: usize,
    case: Misread,
) -> Result<Advice, AllocError>
    ensures { IfOk result (λ advice. advice ≡ spec.case_advised text.now offset case) }
{
    let mut cause = Text::new(alloc);
    put_cause(&mut cause, text, offset, case)?;
    let mut mend = Text::new(alloc);
    put_mend(&mut mend, text, offset, case)?;
    advised(alloc, cause.as_slice(), mend.as_slice())
}

fn number_advice(alloc: Global, number: u32) -> Result<Advice, AllocError>
    ensures { IfOk result (λ advice. advice ≡ advice_in_lem files_lem [] (decimal number)) }
{
    let word = number_text(alloc, number)?;
    advice_in(alloc, files(), b"", word.as_slice())
}
