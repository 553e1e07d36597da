//! What is told of a line that begins with `refused`.
ghost use Rattle.std.specs.Prelude.{◌≡◌, ◌++◌, OnOk};
ghost use Rattle.mh_why.specs.Why as spec;
ghost use Rattle.mh_why.specs.Why.{circle_place, circle_spot, circle_words, refused_at, refused_by, refused_spot, refused_words};

use crate::explanation::case::put_case_advice;
use crate::explanation::ground::Ground;
use crate::explanation::line::{EFFECT_WITH, MEMBERS_OF, PUTS_ITSELF, STANDS_IN};
use crate::explanation::past::Past;
use crate::explanation::place::spot::Spot;
use crate::explanation::way::put_bound;
use crate::explanation::words::{before_last, behind_first, first_word, last_word};
use crate::script::posts::put_posts;
use crate::wrap::put_paragraph;
use mh_cause::Detail;
use mh_told::text::Text;
use std::alloc::{AllocError, Global};

/// Puts what is told of the words behind `refused`. For a bound that is too large these name the kind of
/// input.
#[tactic(auto, unfolding(crate::specs::Why::refused))]
pub(crate) fn put_refused(
    alloc: Global,
    text: &mut Text,
    ground: &Ground<'_>,
    past: &Past<'_, '_>,
    words: &[u8],
) -> Result<(), AllocError>
    ensures { OnOk result (text.new ≡ text.old ++ spec.refused ground.now past.now words.now) }
{
    let behind = behind_first(words);
    let spot = Spot::of_words(before_last(behind));
    put_refused_at(
        alloc,
        text,
        ground,
        first_word(words),
        last_word(behind),
        &spot,
    )?;
    put_posts(alloc, text, ground.script, past.script, first_word(words))?;
    put_case_advice(alloc, text, ground.cause, ground.mend, first_word(words))?;
    put_bound(alloc, text, ground.sources, ground.ways, behind, b"")
}

/// Puts which action is refused, if there is one: only what the verifier refuses for what stands
/// somewhere has a place.
fn put_refused_at(
    alloc: Global,
    text: &mut Text,
    ground: &Ground<'_>,
    number: &[u8],
    action: &[u8],
    spot: &Spot<'_>,
) -> Result<(), AllocError>
    ensures { OnOk result (text.new ≡ text.old ++ refused_at ground.now number.now action.now spot.now) }
{
    match spot.group() {
        [] => Ok(()),
        _ => put_refused_by(alloc, text, ground, number, action, spot),
    }
}

fn put_refused_by(
    alloc: Global,
    text: &mut Text,
    ground: &Ground<'_>,
    number: &[u8],
    action: &[u8],
    spot: &Spot<'_>,
) -> Result<(), AllocError>
    ensures { OnOk result (text.new ≡ text.old ++ refused_by ground.now number.now action.now spot.now) }
{
    if number == b"V6".as_slice() {
        return put_circle_spot(alloc, text, ground, action, spot);
    }
    put_refused_spot(alloc, text, ground, action, spot)
}

/// Puts the effect that puts itself to work; where the arrows are known, they show the actions.
#[tactic(auto, unfolding(crate::specs::Why::circle_spot))]
fn put_circle_spot(
    alloc: Global,
    text: &mut Text,
    ground: &Ground<'_>,
    action: &[u8],
    spot: &Spot<'_>,
) -> Result<(), AllocError>
    ensures { OnOk result (text.new ≡ text.old ++ circle_spot ground.now action.now spot.now) }
{
    let mut sentence = Text::new(alloc);
    put_circle_words(&mut sentence, action, spot)?;
    put_paragraph(alloc, text, sentence.as_slice())?;
    put_circle_place(alloc, text, ground, action, spot)
}

#[tactic(auto, unfolding(crate::specs::Why::circle_place))]
fn put_circle_place(
    alloc: Global,
    text: &mut Text,
    ground: &Ground<'_>,
    action: &[u8],
    spot: &Spot<'_>,
) -> Result<(), AllocError>
    ensures { OnOk result (text.new ≡ text.old ++ circle_place ground.now action.now spot.now) }
{
    match ground.cycle {
        [] => spot.put_refused(alloc, text, ground.sources, action, Detail::Unknown),
        _ => Ok(()),
    }
}

#[tactic(auto, unfolding(crate::specs::Why::circle_words))]
fn put_circle_words(text: &mut Text, action: &[u8], spot: &Spot<'_>) -> Result<(), AllocError>
    ensures { OnOk result (text.new ≡ text.old ++ circle_words action.now spot.now) }
{
    text.put(EFFECT_WITH)?;
    text.put(action)?;
    text.put(b", ")?;
    spot.put_action(text)?;
    text.put(PUTS_ITSELF)
}

#[tactic(auto, unfolding(crate::specs::Why::refused_spot))]
fn put_refused_spot(
    alloc: Global,
    text: &mut Text,
    ground: &Ground<'_>,
    action: &[u8],
    spot: &Spot<'_>,
) -> Result<(), AllocError>
    ensures { OnOk result (text.new ≡ text.old ++ refused_spot ground.now action.now spot.now) }
{
    let mut sentence = Text::new(alloc);
    sentence.put(STANDS_IN)?;
    put_refused_words(&mut sentence, action, spot)?;
    sentence.put(b".")?;
    put_paragraph(alloc, text, sentence.as_slice())?;
    spot.put_refused(alloc, text, ground.sources, action, ground.detail)
}

/// Puts the action, or the members where it has no name.
fn put_refused_words(text: &mut Text, action: &[u8], spot: &Spot<'_>) -> Result<(), AllocError>
    ensures { OnOk result (text.new ≡ text.old ++ refused_words action.now spot.now) }
{
    if action == b"-".as_slice() {
        text.put(MEMBERS_OF)?;
        return spot.put_object(text);
    }
    text.put(action)?;
    text.put(b", ")?;
    spot.put_action(text)
}
