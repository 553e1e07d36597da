//! With what values an action is done, and why nothing came of one that would have changed something.

pub(crate) mod json;

ghost use Rattle.std.specs.Prelude.{◌≡◌, ◌++◌, IfOk, OnOk};
ghost use Rattle.std.specs.List.{flat_map};
ghost use Rattle.std.specs.Option.{option_copied};
ghost use Rattle.mh_model.specs.Arguments as said;
ghost use Rattle.mh_model.specs.Property.{as_number};
ghost use Rattle.mh_model.specs.State.{all};
ghost use Rattle.mh_trace.specs.Why as spec;

use crate::short::{put_given, put_short};
use mh_actions::arguments::{referred, values};
use mh_base::Value;
use mh_group::ActionName;
use mh_model::{Act, Item, Target};
use mh_store::Objects;
use mh_told::text::Text;
use std::alloc::{AllocError, Global};

/// Why nothing came of an action.
#[derive(Clone, Copy, PartialEq, Eq)]
pub enum Why {
    /// As far as is known here, all would be as it is.
    Same,
    Limit,
    Divisor,
    Length,
    Negative,
    Colour,
    Slot,
    Begun,
}

/// Puts the values with which an action is done.
pub fn put_operands(
    alloc: Global,
    text: &mut Text,
    front: &Option<Item>,
    objects: &Objects,
) -> Result<(), AllocError>
    ensures { OnOk result (text.new ≡ text.old ++ spec.operands_note front.now (all objects.now)) }
{
    match front {
        Some(Item::Act(act)) => put_values_of(alloc, text, act, objects),
        _ => Ok(()),
    }
}

fn put_values_of(
    alloc: Global,
    text: &mut Text,
    act: &Act,
    objects: &Objects,
) -> Result<(), AllocError>
    ensures { OnOk result (text.new
        ≡ text.old ++ spec.operands_of (said.values (all objects.now) act.now.arguments)) }
{
    let values = values(alloc, objects, act.arguments.as_slice())?;
    put_values(alloc, text, values.as_slice())
}

fn put_values(alloc: Global, text: &mut Text, values: &[Value]) -> Result<(), AllocError>
    ensures { OnOk result (text.new ≡ text.old ++ spec.operands_of values.now) }
{
    if values.is_empty() {
        Ok(())
    } else {
        put_all_values(alloc, text, values)
    }
}

#[tactic(auto, unfolding(crate::specs::Why::operands_text))]
fn put_all_values(alloc: Global, text: &mut Text, values: &[Value]) -> Result<(), AllocError>
    ensures { OnOk result (text.new ≡ text.old ++ spec.operands_text values.now) }
{
    text.put(b" with")?;
    put_each_value(alloc, text, values)
}

fn put_each_value(alloc: Global, text: &mut Text, values: &[Value]) -> Result<(), AllocError>
    ensures { OnOk result (text.new ≡ text.old ++ flat_map spec.operand_text values.now) }
{
    for value in values {
        put_operand(alloc, text, value)?;
    }
    Ok(())
}

#[tactic(auto, unfolding(crate::specs::Why::operand_text))]
fn put_operand(alloc: Global, text: &mut Text, value: &Value) -> Result<(), AllocError>
    ensures { OnOk result (text.new ≡ text.old ++ spec.operand_text value.now) }
{
    text.put(b" ")?;
    put_short(alloc, text, value)
}

/// Puts what a variable holds that is tested.
pub fn put_tested(
    alloc: Global,
    text: &mut Text,
    front: &Option<Item>,
    objects: &Objects,
) -> Result<(), AllocError>
    ensures { OnOk result (text.new ≡ text.old ++ spec.tested_note front.now (all objects.now)) }
{
    match front {
        Some(Item::Act(act)) => {
            put_tested_by(alloc, text, act.name, held_at(objects, &act.target))
        }
        _ => Ok(()),
    }
}

fn put_tested_by(
    alloc: Global,
    text: &mut Text,
    name: ActionName,
    held: Option<&Value>,
) -> Result<(), AllocError>
    ensures { OnOk result (text.new ≡ text.old ++ spec.tested_by name (option_copied held.entry)) }
{
    match name {
        ActionName::TestVariable => put_tested_text(alloc, text, held),
        _ => Ok(()),
    }
}

#[tactic(auto, unfolding(crate::specs::Why::tested_text))]
fn put_tested_text(alloc: Global, text: &mut Text, held: Option<&Value>) -> Result<(), AllocError>
    ensures { OnOk result (text.new ≡ text.old ++ spec.tested_text (option_copied held.entry)) }
{
    text.put(b"; holds ")?;
    put_given(alloc, text, held)
}

/// What the variable holds that an action is done to.
pub fn held_at<'a>(objects: &'a Objects, target: &'a Target) -> Option<&'a Value>
    ensures { let os = all objects.now in
        option_copied result ≡ spec.held_at (said.referred target.now os) os }
{
    match referred(objects, target) {
        Some(at) => match objects.get(at) {
            Some(object) => object.value(),
            None => None,
        },
        None => None,
    }
}

/// Why nothing would come of the entry, where another transition has begun or not.
pub fn why_of(
    alloc: Global,
    front: &Option<Item>,
    begun: bool,
    objects: &Objects,
) -> Result<Why, AllocError>
    ensures { IfOk result (λ why. why ≡ spec.why_of front.now begun (all objects.now)) }
{
    match front {
        Some(Item::Act(act)) => why_act(alloc, act, begun, objects),
        _ => Ok(Why::Same),
    }
}

fn why_act(alloc: Global, act: &Act, begun: bool, objects: &Objects) -> Result<Why, AllocError>
    ensures { let os = all objects.now in
        IfOk result (λ why. why
        ≡ spec.why_begun begun act.now.name (said.values os act.now.arguments) (as_number (spec.held_at (said.referred act.now.target os) os))) }
{
    let values = values(alloc, objects, act.arguments.as_slice())?;
    let held = number_in(held_at(objects, &act.target));
    Ok(why_begun(begun, act.name, values.as_slice(), held))
}

fn number_in(held: Option<&Value>) -> i32
    ensures { result ≡ as_number (option_copied held.entry) }
{
    match held {
        Some(Value::Int(number)) => *number,
        _ => 0,
    }
}

fn why_begun(begun: bool, name: ActionName, values: &[Value], held: i32) -> Why
    ensures { result ≡ spec.why_begun begun name values.now held }
{
    match (begun, name) {
        (true, ActionName::TransitionTo | ActionName::Launch | ActionName::Quit) => Why::Begun,
        _ => why_by(name, values, held),
    }
}

#[tactic(auto, unfolding(crate::specs::Why::why_by))]
fn why_by(name: ActionName, values: &[Value], held: i32) -> Why
    ensures { result ≡ spec.why_by name values.now held }
{
    match (name, values) {
        (ActionName::Add | ActionName::Subtract, [Value::Int(n)]) => why_if(*n != 0, Why::Limit),
        (ActionName::Multiply, [Value::Int(n)]) => why_if(!(*n == 1 || held == 0), Why::Limit),
        (ActionName::Divide | ActionName::Modulo, [Value::Int(n)]) => {
            why_if(*n == 0, Why::Divisor)
        }
        (ActionName::Append, [Value::Octets(octets)]) => {
            why_if(!octets.as_slice().is_empty(), Why::Length)
        }
        (ActionName::SetBoxSize, [Value::Int(w), Value::Int(h)]) => {
            why_if(*w < 0 || *h < 0, Why::Negative)
        }
        (ActionName::SetLineWidth, [Value::Int(n)]) => why_if(*n < 0, Why::Negative),
        (
            ActionName::SetFillColour | ActionName::SetLineColour | ActionName::SetTextColour,
            [Value::Octets(octets)],
        ) => why_if(octets.as_slice().len() != 4, Why::Colour),
        (ActionName::CallActionSlot, [Value::Int(_)]) => Why::Slot,
        _ => Why::Same,
    }
}

fn why_if(holds: bool, why: Why) -> Why
    ensures { result ≡ spec.why_if holds why }
{
    if holds { why } else { Why::Same }
}

#[tactic(auto, unfolding(crate::specs::Why::why_text))]
pub fn why_text(why: Why) -> &'static [u8]
    ensures { result.now ≡ spec.why_text why }
{
    match why {
        Why::Same => b"",
        Why::Limit => b": the result would be out of range",
        Why::Divisor => b": the divisor is 0",
        Why::Length => b": the result would be too long",
        Why::Negative => b": it would be negative",
        Why::Colour => b": a colour has four octets",
        Why::Slot => b": there is no such slot, or it is empty",
        Why::Begun => b": a transition has begun",
    }
}
