//! The first of the shortest chains to a variable or a list, of several references.
//!
//! Promise: none of the references came there by a shorter chain, nor by one as short whose places come before; and who
//! came by the same places is told. One search serves them all.
ghost use Rattle.std.specs.Prelude.{IfNone, IfOk, IfSome};
ghost use Rattle.std.specs.List.{Contains};
ghost use Rattle.mh_laws.specs.Least.{Derived, Held};
ghost use Rattle.mh_flow.specs.Nearest.{IsNearest};
ghost use Rattle.mh_flow.specs.Solved.{IsFlowOf};

use crate::chain::link::Link;
use crate::chain::moves_of;
use crate::chain::origins::origins_of;
use crate::chain::search::first_links;
use crate::chain::searched_config::holder_at;
use crate::chain::sought::each_once;
use crate::equipped::Equipped;
use crate::flow::Flow;
use mh_base::ObjRef;
use mh_model::Config;
use std::alloc::{AllocError, Global};

/// A chain, and the references that may have come by its places.
#[derive(Drop)]
pub struct Nearest {
    pub links: Vec<Link>,
    /// In their order.
    pub origins: Vec<ObjRef>,
}

/// How the first of these references came to the variable or the list at `holder`: the first of the shortest chains of
/// all, if it may hold one of them in the configuration.
pub fn nearest_of(
    alloc: Global,
    service: &Equipped<'_>,
    flow: &Flow,
    config: &Config,
    holder: &ObjRef,
    references: &[ObjRef],
) -> Result<Option<Nearest>, AllocError>
    requires { IsFlowOf service.now flow.now }
    ensures some { IfOk result (λ found. IfSome found (λ n.
        IsNearest service.now config.now holder.now references.now n.links.items n.origins.items)) }
    ensures none { IfOk result (λ found. IfNone found
        ((q : _) → Contains references.now q → Derived service.now (Held config.now holder.now q) → ⊥)) }
{
    let sought = each_once(alloc, references)?;
    let moves = moves_of(alloc, service, flow, &sought)?;
    let goal = holder_at(config, holder)?;
    match first_links(alloc, moves.as_slice(), &goal)? {
        None => Ok(None),
        Some(links) => {
            let origins = origins_of(alloc, service, &sought, links.as_slice())?;
            Ok(Some(Nearest { links, origins }))
        }
    }
}
