//! What is noted of an object and of its actions, without a theorem.
//!
//! Promise: each function puts behind the others what the definition of the same matter in `specs/Notes` says.
ghost use Rattle.std.specs.Prelude.{◌≡◌, ◌<◌, ◌^◌, ◌+◌, ◌++◌, ◌∷◌, [], length, OnOk};
ghost use Rattle.mh_lint.specs.Notes as spec;

use crate::acts::{divides_by_zero, has_negative, has_no_colour, is_unheard, locks_for_ever};
use crate::note::Note;
use crate::rule::Rule;
use crate::seen::{Seen, seen_of};
use crate::sharing::is_lost;
use crate::sights::{covers_none, cuts_words, hides_words, is_off};
use crate::sources::content::{is_glued, is_mistaken};
use crate::sources::is_to_come;
use crate::uses::Uses;
use mh_base::{GroupName, ObjRef};
use mh_group::{Attribute, Class};
use mh_model::parts::effect_of;
use mh_model::{Act, Fixed};
use std::alloc::{AllocError, Global};

/// Notes it where the test holds.
pub(crate) fn push_if(
    notes: &mut Vec<Note>,
    holds: bool,
    rule: Rule,
    at: &ObjRef,
    index: usize,
) -> Result<(), AllocError>
    ensures { OnOk result (notes.new.items ≡ notes.old.items ++ spec.if_so holds rule at.now index) }
{
    if !holds {
        return Ok(());
    }
    push_note(notes, rule, at, index)
}

pub(crate) fn push_note(
    notes: &mut Vec<Note>,
    rule: Rule,
    at: &ObjRef,
    index: usize,
) -> Result<(), AllocError>
    ensures { OnOk result (notes.new.items ≡ notes.old.items ++ spec.note rule at.now index ∷ []) }
{
    let at = at.clone()?;
    notes.push(Note { rule, at, index })?;
    Ok(())
}

/// What is noted of an action.
#[tactic(auto, unfolding(crate::specs::Notes::of_act))]
fn push_act(
    notes: &mut Vec<Note>,
    uses: &Uses,
    at: &ObjRef,
    index: usize,
    seen: &Seen,
) -> Result<(), AllocError>
    ensures { OnOk result (notes.new.items ≡ notes.old.items ++ spec.of_act uses.now at.now index seen.now) }
{
    let act = &seen.act;
    push_if(notes, seen.is_behind, Rule::BehindTransition, at, index)?;
    push_if(notes, divides_by_zero(act), Rule::DivisionByZero, at, index)?;
    push_if(notes, has_negative(act), Rule::NegativeSize, at, index)?;
    push_if(notes, has_no_colour(act), Rule::ColourOctets, at, index)?;
    push_if(notes, is_unheard(uses, act), Rule::UnheardTimer, at, index)?;
    push_if(
        notes,
        locks_for_ever(uses, act),
        Rule::LockedForEver,
        at,
        index,
    )
}

/// What is noted of actions, of which the first has this number.
#[tactic(auto, unfolding(crate::specs::Notes::of_acts))]
fn push_acts(
    notes: &mut Vec<Note>,
    uses: &Uses,
    at: &ObjRef,
    first: usize,
    acts: &[Seen],
) -> Result<(), AllocError>
    requires { first + length acts.now < 2 ^ 64 }
    ensures { OnOk result (notes.new.items ≡ notes.old.items ++ spec.of_acts uses.now at.now first acts.now) }
{
    let mut index = first;
    for seen in acts {
        push_act(notes, uses, at, index, seen)?;
        index += 1;
    }
    Ok(())
}

fn is_empty(acts: &[Act]) -> bool
    ensures { result ≡ spec.is_empty acts.now }
{
    matches!(acts, [])
}

fn does_nothing(part: &Fixed) -> bool
    ensures { result ≡ spec.does_nothing part.now }
{
    matches!(part.class, Class::Link) && is_empty(effect_of(part, Attribute::LinkEffect))
}

/// Whether it is a variable that nothing reads.
fn is_unread(uses: &Uses, part: &Fixed) -> bool
    ensures { result ≡ spec.is_unread uses.now part.now }
{
    part.class.is_variable() && !uses.read.may_be(&part.key)
}

/// Whether it is a field into which nothing is ever typed.
fn takes_nothing(uses: &Uses, part: &Fixed) -> bool
    ensures { result ≡ spec.takes_nothing uses.now part.now }
{
    matches!(part.class, Class::EntryField) && !uses.touched.may_be(&part.key)
}

/// What is noted of a visible by what it looks like.
#[tactic(auto, unfolding(crate::specs::Notes::of_look))]
fn push_look(notes: &mut Vec<Note>, uses: &Uses, part: &Fixed) -> Result<(), AllocError>
    ensures { OnOk result (notes.new.items ≡ notes.old.items ++ spec.of_look uses.now part.now) }
{
    let at = &part.key;
    push_if(notes, is_off(uses, part), Rule::OffScreen, at, 0)?;
    push_if(notes, covers_none(uses, part), Rule::CoversNoCell, at, 0)?;
    push_if(notes, cuts_words(uses, part), Rule::CutText, at, 0)?;
    push_if(notes, hides_words(uses, part), Rule::TextInItsColour, at, 0)
}

/// What is noted of an object, in a group that is an application or not.
#[tactic(auto, unfolding(crate::specs::Notes::of_itself))]
fn push_itself(
    notes: &mut Vec<Note>,
    uses: &Uses,
    is_of_application: bool,
    part: &Fixed,
) -> Result<(), AllocError>
    ensures { OnOk result (notes.new.items ≡ notes.old.items ++ spec.of_itself uses.now is_of_application part.now) }
{
    let at = &part.key;
    let ends = is_of_application && is_lost(uses, part);
    push_if(notes, ends, Rule::NotShared, at, 0)?;
    push_if(notes, does_nothing(part), Rule::NoActions, at, 0)?;
    push_if(notes, is_unread(uses, part), Rule::UnreadVariable, at, 0)?;
    push_if(notes, takes_nothing(uses, part), Rule::NoInteraction, at, 0)?;
    push_look(notes, uses, part)
}

/// What is noted of its content; also that it has to arrive, where all is asked for.
#[tactic(auto, unfolding(crate::specs::Notes::of_content))]
fn push_content(
    notes: &mut Vec<Note>,
    all: bool,
    files: &[(GroupName, Vec<u8>)],
    part: &Fixed,
) -> Result<(), AllocError>
    ensures { OnOk result (notes.new.items ≡ notes.old.items ++ spec.of_content all files.now part.now) }
{
    let is_told = all && is_to_come(files, part);
    push_if(
        notes,
        is_glued(files, part),
        Rule::BareLineFeeds,
        &part.key,
        0,
    )?;
    push_if(
        notes,
        is_mistaken(files, part),
        Rule::NamedAlike,
        &part.key,
        0,
    )?;
    push_if(notes, is_told, Rule::ContentToCome, &part.key, 0)
}

/// What is noted of the actions of an object.
fn push_actions(
    alloc: Global,
    notes: &mut Vec<Note>,
    uses: &Uses,
    late: &[GroupName],
    part: &Fixed,
) -> Result<(), AllocError>
    ensures { OnOk result (notes.new.items
        ≡ notes.old.items ++ spec.of_acts uses.now part.now.key 1 (spec.seen_of late.now part.now)) }
{
    let seen = seen_of(alloc, late, part)?;
    push_acts(notes, uses, &part.key, 1, seen.as_slice())
}

/// What is noted of an object: of itself, of its content and of its actions.
#[tactic(auto, unfolding(crate::specs::Notes::of_object))]
pub(crate) fn push_object(
    alloc: Global,
    notes: &mut Vec<Note>,
    all: bool,
    files: &[(GroupName, Vec<u8>)],
    uses: &Uses,
    late: &[GroupName],
    is_of_application: bool,
    part: &Fixed,
) -> Result<(), AllocError>
    ensures { OnOk result (notes.new.items
        ≡ notes.old.items ++ spec.of_object all files.now uses.now late.now is_of_application part.now) }
{
    push_itself(notes, uses, is_of_application, part)?;
    push_content(notes, all, files, part)?;
    push_actions(alloc, notes, uses, late, part)
}
