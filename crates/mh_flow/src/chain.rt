//! How a reference came to a variable or a list.
//!
//! Promise: a chain is told wherever the flow has the reference, and of all chains it is the first of the shortest.

pub(crate) mod bringing;
pub(crate) mod link;
pub(crate) mod moves;
pub mod nearest;
pub(crate) mod origins;
pub(crate) mod routes;
pub(crate) mod search;
pub(crate) mod searched_config;
pub(crate) mod sought;
pub(crate) mod steps;

ghost use Rattle.std.specs.Prelude.{◌≡◌, ◌++◌, IfNone, IfOk, IfSome, OnOk};
ghost use Rattle.mh_laws.specs.Least.{Derived, Held};
ghost use Rattle.mh_flow.specs.Chains.{IsFirstChain};
ghost use Rattle.mh_flow.specs.Solved.{IsFlowOf, flow_of};
ghost use Rattle.mh_flow.specs.Steps.{searched_in, moves_in, moves_of};

use crate::chain::link::Link;
use crate::chain::moves::Move;
use crate::chain::search::first_links;
use crate::chain::searched_config::{SearchedConfig, holder_at};
use crate::chain::sought::alone;
use crate::equipped::Equipped;
use crate::flow::Flow;
use indexmap::IndexSet;
use mh_base::ObjRef;
use mh_model::Config;
use std::alloc::{AllocError, Global};

/// The moves of what is sought in the configuration go behind these.
fn push_config<'a>(
    alloc: Global,
    moves: &mut Vec<Move>,
    service: &'a Equipped<'a>,
    flow: &'a Flow,
    config: &'a Config,
    sought: &'a IndexSet<ObjRef>,
) -> Result<(), AllocError>
    requires { IsFlowOf service.now flow.now }
    ensures { let w = flow_of service.now flow.now.chart flow.now.rows in
        OnOk result (moves.new.items ≡ moves.old.items ++ moves_in (searched_in service.now w sought.now.keys config.now)) }
{
    let present = flow.present(service, config);
    let held = flow.held(alloc, service, config)?;
    let here = SearchedConfig {
        service,
        config,
        present: &present,
        held: &held,
        sought,
    };
    here.push_moves(alloc, moves)?;
    Ok(())
}

/// All moves of what is sought.
pub(crate) fn moves_of(
    alloc: Global,
    service: &Equipped<'_>,
    flow: &Flow,
    sought: &IndexSet<ObjRef>,
) -> Result<Vec<Move>, AllocError>
    requires { IsFlowOf service.now flow.now }
    ensures { let w = flow_of service.now flow.now.chart flow.now.rows in
        IfOk result (λ moves. moves.items ≡ moves_of service.now w sought.now.keys) }
{
    let configs = flow.configs(alloc)?;
    let mut moves = Vec::new(alloc);
    for config in &configs {
        push_config(alloc, &mut moves, &*service, &*flow, config, &*sought)?;
    }
    Ok(moves)
}

/// How the reference came to the variable or the list at `holder`: the first of the shortest chains, if it may hold the
/// reference in the configuration.
pub fn chain(
    alloc: Global,
    service: &Equipped<'_>,
    flow: &Flow,
    config: &Config,
    holder: &ObjRef,
    at: &ObjRef,
) -> Result<Option<Vec<Link>>, AllocError>
    requires { IsFlowOf service.now flow.now }
    ensures some { IfOk result (λ found. IfSome found (λ links.
        IsFirstChain service.now at.now config.now holder.now links.items)) }
    ensures none { IfOk result (λ found. IfNone found
        (Derived service.now (Held config.now holder.now at.now) → ⊥)) }
{
    let sought = alone(alloc, at)?;
    let moves = moves_of(alloc, service, flow, &sought)?;
    let goal = holder_at(config, holder)?;
    first_links(alloc, moves.as_slice(), &goal)
}
