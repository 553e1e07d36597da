//! The nodes that are laid first: of the start, of all inputs, and of all active effects that have actions.
//!
//! Promise: each of them is there, in the order of configurations and of what is present.
ghost use Rattle.std.specs.Prelude.{◌≡◌, ◌++◌, ◌∷◌, [], map, filter, not, true, IfOk, IsErrOf, OnOk};
ghost use Rattle.std.specs.List.{flat_map, list_all};
ghost use Rattle.mh_model.specs.Configuration.{starting as starting_lem};
ghost use Rattle.mh_model.specs.Step.{is_empty};
ghost use Rattle.mh_laws.specs.Active.{is_active};
ghost use Rattle.mh_layers.specs.Layered.{active_nodes, acting_among, input_nodes, nodes_active, nodes_at, kinds, root_nodes};
ghost use Rattle.mh_layers.specs.Layering.{AreLayers, NoneRanked, is_laid};
ghost use Rattle.mh_layers.specs.Looping.{HasLoop};
ghost use Rattle.mh_layers.specs.Reading.{config_number, flow_read, kept, object_number, price};
ghost use Rattle.mh_layers.specs.declared.numbered_node.NumberedNode.TheVariants as node;

use crate::bounds::InputKind;
use crate::effects::effects_of;
use crate::laying::{LayersError, Laying, lay};
use crate::numbered::NumberedService;
use crate::numbered_node::NumberedNode;
use mh_flow::{Equipped, Present};
use mh_model::{Act, Config, Fixed, FixedPart};
use std::alloc::{AllocError, Global};

/// Puts the node of the effect with this number, if it has actions: one without costs nothing, and puts nothing to work.
fn push_if_acting(
    nodes: &mut Vec<NumberedNode>,
    config: usize,
    object: usize,
    number: usize,
    acts: &[Act],
) -> Result<(), AllocError>
    ensures { let acting = filter (λ _. not (is_empty acts.now)) (number ∷ []) in
        OnOk result (nodes.new.items ≡ nodes.old.items ++ map (λ n. node.Effect config object n) acting) }
{
    if !acts.is_empty() {
        nodes.push(NumberedNode::Effect(config, object, number))?;
    }
    Ok(())
}

/// Puts the nodes of those of an object's effects that have actions.
fn push_acting(
    nodes: &mut Vec<NumberedNode>,
    config: usize,
    object: usize,
    effects: &[&[Act]],
) -> Result<(), AllocError>
    ensures { let acting = acting_among (map (λ e. e.now) effects.now) in
        OnOk result (nodes.new.items ≡ nodes.old.items ++ map (λ n. node.Effect config object n) acting) }
{
    for number in 0..effects.len() {
        push_if_acting(nodes, config, object, number, effects[number])?;
    }
    Ok(())
}

fn push_part(
    nodes: &mut Vec<NumberedNode>,
    numbered_service: &NumberedService<'_>,
    config: usize,
    part: &Fixed,
) -> Result<(), AllocError>
    ensures { OnOk result (nodes.new.items ≡ nodes.old.items ++ nodes_at numbered_service.now config part.now) }
{
    let effects = effects_of(numbered_service.allocator(), part)?;
    let object = numbered_service.object_number(&part.key);
    push_acting(nodes, config, object, effects.as_slice())?;
    Ok(())
}

/// Puts the nodes of the effects of those of these parts that are active.
fn push_active(
    nodes: &mut Vec<NumberedNode>,
    numbered_service: &NumberedService<'_>,
    present: &Present<'_>,
    config: usize,
    parts: &[FixedPart],
) -> Result<(), AllocError>
    ensures { let ps = filter (is_active present.now) parts.now in
        OnOk result (nodes.new.items ≡ nodes.old.items ++ flat_map (nodes_at numbered_service.now config) ps) }
{
    for part in parts {
        if present.is_active(part.get()) {
            push_part(nodes, numbered_service, config, part.get())?;
        }
    }
    Ok(())
}

fn push_config(
    nodes: &mut Vec<NumberedNode>,
    numbered_service: &NumberedService<'_>,
    config: &Config,
) -> Result<(), AllocError>
    ensures { OnOk result (nodes.new.items ≡ nodes.old.items ++ nodes_active numbered_service.now config.now) }
{
    let number = numbered_service.config_number(config);
    let present = numbered_service.present(config);
    let (application, scene) = present.parts();
    push_active(nodes, numbered_service, &present, number, application)?;
    push_active(nodes, numbered_service, &present, number, scene)?;
    Ok(())
}

pub(crate) fn push_effects(
    nodes: &mut Vec<NumberedNode>,
    numbered_service: &NumberedService<'_>,
) -> Result<(), AllocError>
    ensures { OnOk result (nodes.new.items ≡ nodes.old.items ++ active_nodes numbered_service.now) }
{
    for config in numbered_service.configs() {
        push_config(nodes, numbered_service, config)?;
    }
    Ok(())
}

// Inputs

/// Puts the nodes of all kinds of input that are taken in the configuration with this number.
fn push_kinds(nodes: &mut Vec<NumberedNode>, config: usize) -> Result<(), AllocError>
    ensures { OnOk result (nodes.new.items ≡ nodes.old.items ++ map (λ k. node.Taken config k) kinds) }
{
    nodes.push(NumberedNode::Taken(config, InputKind::Key))?;
    nodes.push(NumberedNode::Taken(config, InputKind::Tick))?;
    nodes.push(NumberedNode::Taken(config, InputKind::Stream))?;
    nodes.push(NumberedNode::Taken(config, InputKind::Engine))?;
    nodes.push(NumberedNode::Taken(config, InputKind::Arrive))?;
    Ok(())
}

fn push_taken(
    nodes: &mut Vec<NumberedNode>,
    numbered_service: &NumberedService<'_>,
    config: &Config,
) -> Result<(), AllocError>
    ensures { OnOk result (nodes.new.items ≡ nodes.old.items ++ input_nodes numbered_service.now config.now) }
{
    push_kinds(nodes, numbered_service.config_number(config))
}

fn push_inputs(
    nodes: &mut Vec<NumberedNode>,
    numbered_service: &NumberedService<'_>,
) -> Result<(), AllocError>
    ensures { OnOk result (nodes.new.items ≡ nodes.old.items ++ flat_map (input_nodes numbered_service.now) (flow_read numbered_service.now).configs) }
{
    for config in numbered_service.configs() {
        push_taken(nodes, numbered_service, config)?;
    }
    Ok(())
}

/// The start application with no scene.
pub(crate) fn starting(service: &Equipped<'_>) -> Result<Config, AllocError>
    ensures { IfOk result (λ start. start ≡ starting_lem service.now) }
{
    Ok(Config {
        app: service.start().clone()?,
        scene: None,
    })
}

/// The number of the configuration in which the service starts.
pub(crate) fn start_number(numbered_service: &NumberedService<'_>) -> Result<usize, AllocError>
    ensures { IfOk result (λ number. number ≡ config_number numbered_service.now (starting_lem numbered_service.now.service)) }
{
    let start = starting(numbered_service.service())?;
    Ok(numbered_service.config_number(&start))
}

/// The nodes of the start, of all inputs and of all active effects that have actions.
pub(crate) fn roots(
    alloc: Global,
    numbered_service: &NumberedService<'_>,
) -> Result<Vec<NumberedNode>, AllocError>
    ensures { IfOk result (λ nodes. nodes.items ≡ root_nodes numbered_service.now) }
{
    let mut nodes = Vec::new(alloc);
    let start = start_number(numbered_service)?;
    nodes.push(NumberedNode::Taken(start, InputKind::Start))?;
    push_inputs(&mut nodes, numbered_service)?;
    push_effects(&mut nodes, numbered_service)?;
    Ok(nodes)
}

/// The layers of these nodes, and of all that they count.
pub(crate) fn lay_roots(
    alloc: Global,
    numbered_service: &NumberedService<'_>,
) -> Result<Laying, LayersError>
    ensures layers { IfOk result (λ laying. AreLayers (price numbered_service.now) (kept numbered_service.now) laying) }
    ensures laid { IfOk result (λ laying. list_all (is_laid laying) (root_nodes numbered_service.now) ≡ true) }
    ensures cycle { IsErrOf result LayersError.Cycle → NoneRanked (price numbered_service.now) (kept numbered_service.now) }
    ensures looped { IsErrOf result LayersError.Cycle → HasLoop (price numbered_service.now) (kept numbered_service.now) }
{
    numbered_service.read();
    let nodes = roots(alloc, numbered_service)?;
    lay(alloc, numbered_service, nodes.as_slice())
}
