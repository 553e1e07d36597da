//! A configuration that is reached, with what is held there, and how a move there is written.
//!
//! Promise: each function answers what the definition that its clause names says.
ghost use Rattle.std.specs.Prelude.{◌≡◌, ◌++◌, ◌∷◌, [], ◌&&◌, IfOk, OnOk};
ghost use Rattle.mh_laws.specs.Flow.{is_reference_in};
ghost use Rattle.mh_flow.specs.Steps as spec;

use crate::chain::moves::{ActionSite, Holder, Move};
use crate::chain::sought::is_any;
use crate::equipped::Equipped;
use crate::flow::Held;
use crate::present::Present;
use crate::sites::Site;
use indexmap::IndexSet;
use mh_base::ObjRef;
use mh_model::{Config, Fixed};
use std::alloc::AllocError;
use std::marker::Model;

/// A configuration that is reached, what is present and held there, and the references that are sought.
#[derive(Drop)]
pub(crate) struct SearchedConfig<'a> {
    pub service: &'a Equipped<'a>,
    pub config: &'a Config,
    pub present: &'a Present<'a>,
    pub held: &'a Held,
    pub sought: &'a IndexSet<ObjRef>,
}

impl<'a> Model for SearchedConfig<'a> {
    ghost use Rattle.mh_flow.specs.Steps.{SearchedConfigLem};

    ghost Value = { SearchedConfigLem };

    ghost view = { λ g. record {
      service = g.service.now;
      config = g.config.now;
      present = g.present.now;
      held = g.held.now;
      sought = g.sought.now.keys;
    } };
}

/// The object as a holder.
pub(crate) fn holder_at(config: &Config, at: &ObjRef) -> Result<Holder, AllocError>
    ensures { IfOk result (λ holder. holder ≡ spec.holder_at config.now at.now) }
{
    let config = config.clone()?;
    let at = at.clone()?;
    Ok(Holder { config, at })
}

/// The action site of an object.
pub(crate) fn first_action_site(part: &Fixed) -> Result<ActionSite, AllocError>
    ensures { IfOk result (λ action_site. action_site ≡ spec.first_action_site part.now) }
{
    let key = part.key.clone()?;
    Ok(ActionSite { key, index: 0 })
}

/// The action site of an action.
pub(crate) fn action_site_at(site: &Site<'_>) -> Result<ActionSite, AllocError>
    ensures { IfOk result (λ action_site. action_site ≡ spec.action_site_at site.now) }
{
    let key = site.key.clone()?;
    Ok(ActionSite {
        key,
        index: site.index,
    })
}

/// Puts behind these that a reference comes to the holder.
pub(crate) fn push_comes(
    moves: &mut Vec<Move>,
    action_site: ActionSite,
    to: Holder,
) -> Result<(), AllocError>
    ensures { OnOk result (moves.new.items ≡ moves.old.items ++ spec.comes action_site to ∷ []) }
{
    moves.push(Move {
        from: None,
        action_site: Some(action_site),
        to,
    })?;
    Ok(())
}

/// Puts behind these that a reference goes from holder to holder.
pub(crate) fn push_goes(
    moves: &mut Vec<Move>,
    from: Holder,
    action_site: ActionSite,
    to: Holder,
) -> Result<(), AllocError>
    ensures { OnOk result (moves.new.items ≡ moves.old.items ++ spec.goes from action_site to ∷ []) }
{
    moves.push(Move {
        from: Some(from),
        action_site: Some(action_site),
        to,
    })?;
    Ok(())
}

/// Puts behind these that a reference stays with what holds it.
pub(crate) fn push_stays(moves: &mut Vec<Move>, from: Holder, to: Holder) -> Result<(), AllocError>
    ensures { OnOk result (moves.new.items ≡ moves.old.items ++ spec.stays from to ∷ []) }
{
    moves.push(Move {
        from: Some(from),
        action_site: None,
        to,
    })?;
    Ok(())
}

impl<'a> SearchedConfig<'a> {
    /// The object as a holder.
    pub(crate) fn holder_at(&self, at: &ObjRef) -> Result<Holder, AllocError>
        ensures { IfOk result (λ holder. holder ≡ spec.holder_at self.now.config at.now) }
    {
        holder_at(self.config, at)
    }

    /// Whether the object holds one that is sought.
    pub(crate) fn holds(&self, at: &ObjRef) -> bool
        ensures { let g = spec.ground_of self.now in result ≡ spec.holds g at.now }
    {
        is_any(self.sought, self.held.of(self.present, at))
    }

    /// Whether the variable is present, and holds one that is sought.
    pub(crate) fn is_holding(&self, variable: &ObjRef) -> bool
        ensures { let g = spec.ground_of self.now in result ≡ (is_reference_in g.present variable.now && spec.holds g variable.now) }
    {
        self.present.is_reference(variable) && self.holds(variable)
    }
}
