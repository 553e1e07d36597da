//! What is told of a finding in one sentence.
ghost use Rattle.std.specs.Prelude.{◌≡◌, ◌++◌, IfOk, OnOk};
ghost use Rattle.std.specs.Option.{option_copied};
ghost use Rattle.mh_findings.specs.Messages.{grade_word};
ghost use Rattle.mh_findings.specs.Messages as spec;

use crate::finding::{Finding, Grade};
use crate::words::Words;
use mh_told::text::Text;
use std::alloc::{AllocError, Global};

#[tactic(auto, unfolding(crate::specs::Messages::grade_word))]
pub(crate) fn grade_word(grade: Grade) -> &'static str
    ensures { result.now ≡ grade_word grade }
{
    match grade {
        Grade::Unread => "unread",
        Grade::Refused => "refused",
        Grade::Fault => "fault",
        Grade::Never => "never",
        Grade::Note => "note",
    }
}

/// The grade and the rule.
#[tactic(auto, unfolding(crate::specs::Messages::title))]
pub(crate) fn put_title(text: &mut Text, finding: &Finding) -> Result<(), AllocError>
    ensures { OnOk result (text.new ≡ text.old ++ spec.title finding.now) }
{
    text.put(grade_word(finding.grade).as_bytes())?;
    text.put(b" ")?;
    text.put(finding.rule.as_bytes())
}

/// Puts what is wrong, and the mend if there is one.
#[tactic(auto, unfolding(crate::specs::Messages::message))]
pub(crate) fn put_message(text: &mut Text, finding: &Finding) -> Result<(), AllocError>
    ensures { OnOk result (text.new ≡ text.old ++ spec.message finding.now) }
{
    text.put(finding.what.as_bytes())?;
    put_mend(text, finding.mend.as_ref())
}

#[tactic(auto, unfolding(crate::specs::Messages::mend_words))]
fn put_mend(text: &mut Text, mend: Option<&Words>) -> Result<(), AllocError>
    ensures { OnOk result (text.new ≡ text.old ++ spec.mend_words (option_copied mend.entry)) }
{
    match mend {
        None => Ok(()),
        Some(mend) => {
            text.put(b"; ")?;
            text.put(mend.as_bytes())
        }
    }
}

/// The message as a text of its own.
pub(crate) fn message_of(alloc: Global, finding: &Finding) -> Result<Text, AllocError>
    ensures { IfOk result (λ text. text ≡ spec.message finding.now) }
{
    let mut text = Text::new(alloc);
    put_message(&mut text, finding)?;
    Ok(text)
}

/// The grade and the rule as a text of their own.
pub(crate) fn title_of(alloc: Global, finding: &Finding) -> Result<Text, AllocError>
    ensures { IfOk result (λ text. text ≡ spec.title finding.now) }
{
    let mut text = Text::new(alloc);
    put_title(&mut text, finding)?;
    Ok(text)
}
