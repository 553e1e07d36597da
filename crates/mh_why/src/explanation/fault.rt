//! What is told of an action that was stuck.
ghost use Rattle.std.specs.Prelude.{◌≡◌, ◌++◌, OnOk};
ghost use Rattle.mh_why.specs.Why as spec;
ghost use Rattle.mh_why.specs.Why.{stuck};

use crate::explanation::advice::{faults, put_advice};
use crate::explanation::line::{THE_ACTION, WAS_STUCK};
use crate::explanation::meant::Sought;
use crate::explanation::place::named::put_actions_named;
use crate::explanation::place::spot::put_object;
use crate::explanation::unread::missing::put_missing;
use crate::explanation::words::{before_last, behind_first, first_word, last_word};
use crate::files::shown::Source;
use crate::wrap::put_paragraph;
use mh_told::text::Text;
use std::alloc::{AllocError, Global};

/// Puts what is told of a kind, the action and the reference, and where actions of that name stand.
#[tactic(auto, unfolding(crate::specs::Why::fault))]
pub(crate) fn put_fault(
    alloc: Global,
    text: &mut Text,
    sources: &[Source<'_>],
    words: &[u8],
) -> Result<(), AllocError>
    ensures { OnOk result (text.new ≡ text.old ++ spec.fault sources.now words.now) }
{
    let behind = behind_first(words);
    let action = first_word(behind);
    let at = behind_first(behind);
    put_stuck(alloc, text, action, at)?;
    let sought = Sought {
        action,
        number: last_word(behind),
    };
    put_actions_named(alloc, text, sources, &sought)?;
    put_missing(alloc, text, sources, before_last(at))?;
    put_advice(alloc, text, faults(), first_word(words))
}

#[tactic(auto, unfolding(crate::specs::Why::stuck))]
fn put_stuck(alloc: Global, text: &mut Text, action: &[u8], at: &[u8]) -> Result<(), AllocError>
    ensures { OnOk result (text.new ≡ text.old ++ stuck action.now at.now) }
{
    let mut sentence = Text::new(alloc);
    sentence.put(THE_ACTION)?;
    sentence.put(action)?;
    sentence.put(WAS_STUCK)?;
    put_object(&mut sentence, before_last(at), last_word(at))?;
    sentence.put(b".")?;
    put_paragraph(alloc, text, sentence.as_slice())
}
