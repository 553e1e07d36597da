//! With what values an action is done, as members of an object.
ghost use Rattle.std.specs.Prelude.{◌≡◌, ◌++◌, IfOk, OnOk};
ghost use Rattle.std.specs.List.{flat_map};
ghost use Rattle.std.specs.Option.{option_copied};
ghost use Rattle.mh_model.specs.Arguments as said;
ghost use Rattle.mh_model.specs.State.{all};
ghost use Rattle.mh_trace.specs.Changes.{short_value};
ghost use Rattle.mh_trace.specs.Why as spec;

use crate::changes::json::shown_given;
use crate::json::{put_list_if, put_more, put_string};
use crate::short::put_short;
use crate::why::held_at;
use mh_actions::arguments::values;
use mh_base::Value;
use mh_group::ActionName;
use mh_model::{Act, Item};
use mh_store::Objects;
use mh_told::text::Text;
use std::alloc::{AllocError, Global};

/// Puts the values with which an action is done.
pub fn put_operands(
    alloc: Global,
    text: &mut Text,
    front: &Option<Item>,
    objects: &Objects,
) -> Result<(), AllocError>
    ensures { OnOk result (text.new ≡ text.old ++ spec.operands_json front.now (all objects.now)) }
{
    match front {
        Some(Item::Act(act)) => put_values_of(alloc, text, act, objects),
        _ => Ok(()),
    }
}

fn put_values_of(
    alloc: Global,
    text: &mut Text,
    act: &Act,
    objects: &Objects,
) -> Result<(), AllocError>
    ensures { OnOk result (text.new
        ≡ text.old ++ spec.operands_list (said.values (all objects.now) act.now.arguments)) }
{
    let values = values(alloc, objects, act.arguments.as_slice())?;
    let list = operands(alloc, values.as_slice())?;
    put_list_if(text, b"with", list.as_slice())
}

fn operands(alloc: Global, values: &[Value]) -> Result<Text, AllocError>
    ensures { IfOk result (λ list. list ≡ flat_map spec.operand_json values.now) }
{
    let mut list = Text::new(alloc);
    put_each(alloc, &mut list, values)?;
    Ok(list)
}

fn put_each(alloc: Global, list: &mut Text, values: &[Value]) -> Result<(), AllocError>
    ensures { OnOk result (list.new ≡ list.old ++ flat_map spec.operand_json values.now) }
{
    for value in values {
        put_operand(alloc, list, value)?;
    }
    Ok(())
}

#[tactic(auto, unfolding(crate::specs::Why::operand_json))]
fn put_operand(alloc: Global, list: &mut Text, value: &Value) -> Result<(), AllocError>
    ensures { OnOk result (list.new ≡ list.old ++ spec.operand_json value.now) }
{
    let shown = shown_short(alloc, value)?;
    list.put(b",")?;
    put_string(list, shown.as_slice())
}

fn shown_short(alloc: Global, value: &Value) -> Result<Text, AllocError>
    ensures { IfOk result (λ shown. shown ≡ short_value value.now) }
{
    let mut shown = Text::new(alloc);
    put_short(alloc, &mut shown, value)?;
    Ok(shown)
}

/// Puts what a variable holds that is tested.
pub fn put_tested(
    alloc: Global,
    text: &mut Text,
    front: &Option<Item>,
    objects: &Objects,
) -> Result<(), AllocError>
    ensures { OnOk result (text.new ≡ text.old ++ spec.tested_json front.now (all objects.now)) }
{
    match front {
        Some(Item::Act(act)) => put_holds(alloc, text, act.name, held_at(objects, &act.target)),
        _ => Ok(()),
    }
}

fn put_holds(
    alloc: Global,
    text: &mut Text,
    name: ActionName,
    held: Option<&Value>,
) -> Result<(), AllocError>
    ensures { OnOk result (text.new ≡ text.old ++ spec.holds_json name (option_copied held.entry)) }
{
    match name {
        ActionName::TestVariable => put_held_value(alloc, text, held),
        _ => Ok(()),
    }
}

fn put_held_value(alloc: Global, text: &mut Text, held: Option<&Value>) -> Result<(), AllocError>
    ensures { OnOk result (text.new
        ≡ text.old ++ spec.held_json (option_copied held.entry)) }
{
    let shown = shown_given(alloc, held)?;
    put_more(text, b"holds", shown.as_slice())
}
