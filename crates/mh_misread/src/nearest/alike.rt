//! Actions with names that begin as a word does that no table has.
ghost use Rattle.std.specs.Prelude.{◌≡◌, ◌++◌, OnOk};
ghost use Rattle.mh_misread.specs.Mending.{actions_alike, alike_for, alike_told, begin_alike, name_found};

use crate::goal::Goal;
use crate::part::Listed;
use crate::phrases::BEGIN_ALIKE;
use crate::span::{behind, front};
use crate::token::first_token;
use mh_group::{ActionName, action_name};
use mh_told::text::Text;
use std::alloc::AllocError;

/// The name of the keyword that stands at the offset.
pub(crate) fn name_found(file: &[u8], offset: usize) -> &[u8]
    ensures { result.now ≡ name_found file.now offset }
{
    match first_token(behind(file, offset)) {
        Some(token) => behind(token.text, 1),
        None => &[],
    }
}

/// Whether the three letters in front are the same.
fn begin_alike(word: &[u8], other: &[u8]) -> bool
    ensures { result ≡ begin_alike word.now other.now }
{
    word.len() >= 3 && front(word, 3) == front(other, 3)
}

/// Puts the actions with names that begin alike, where an action is wanted.
pub(crate) fn put_alike_for(text: &mut Text, goal: Goal, word: &[u8]) -> Result<(), AllocError>
    ensures { OnOk result (text.new ≡ text.old ++ alike_for goal word.now) }
{
    match goal {
        Goal::Members(Listed::Actions) => put_alike(text, word),
        _ => Ok(()),
    }
}

#[tactic(auto, unfolding(crate::specs::Mending::alike_told))]
fn put_alike(text: &mut Text, word: &[u8]) -> Result<(), AllocError>
    ensures { OnOk result (text.new ≡ text.old ++ alike_told word.now) }
{
    put_actions_alike(text, word, &action_name::ALL)
}

/// Puts those of these actions that begin alike.
fn put_actions_alike(text: &mut Text, word: &[u8], actions: &[ActionName]) -> Result<(), AllocError>
    ensures { OnOk result (text.new ≡ text.old ++ actions_alike BEGIN_ALIKE.now word.now actions.now) }
{
    let mut before = BEGIN_ALIKE;
    let mut left = actions;
    while let [action, behind @ ..] = left {
        if begin_alike(word, action.word()) {
            text.put(before)?;
            text.put(action.word())?;
            before = b", ";
        }
        left = behind;
    }
    Ok(())
}
