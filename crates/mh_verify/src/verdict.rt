//! What is found of a service, before it is accepted or refused.
ghost use Rattle.std.specs.Prelude.{◌≡◌, ◌<◌, IfOk, length};
ghost use Rattle.mh_verify.specs.Verdicts.{IsHeaded, head_of};

use crate::{Coming, Found, Place};
use mh_base::Seq;
use mh_group::ActionName;
use mh_layers::{Arrow, Bounds, Cause, InputKind};
use mh_model::Config;
use std::alloc::AllocError;

/// The place of the first action of an effect, and a configuration.
#[derive(Drop)]
pub struct Head {
    pub place: Place,
    pub action: Option<ActionName>,
    pub config: Config,
}

/// Effects that put each other to work, and the last of them the first; with the place of the first.
#[derive(Drop)]
pub struct Cycle {
    pub head: Head,
    pub arrows: Seq<Arrow>,
}

/// What is found first: what is wrong, then effects that put themselves to work, then what can lead to too many steps;
/// or else the bounds.
#[derive(Drop)]
pub enum Verdict {
    Wrong(Found, Coming),
    Cyclic(Cycle),
    Costly(InputKind),
    Fine(Bounds),
}

/// The place of an effect, copied.
fn head_of(cause: &Cause) -> Result<Head, AllocError>
    ensures { IfOk result (λ head. head ≡ head_of cause.now) }
{
    Ok(Head {
        place: Place {
            group: cause.at.group.clone()?,
            object: cause.at.number,
            index: cause.index,
        },
        action: cause.action,
        config: cause.config.clone()?,
    })
}

impl Cycle {
    /// Of arrows the first of which is there.
    pub fn of(arrows: Vec<Arrow>) -> Result<Cycle, AllocError>
        requires { 0 < length arrows.items }
        ensures { IfOk result (λ cycle. IsHeaded arrows.items cycle) }
    {
        match arrows.first() {
            Some(first) => {
                let head = head_of(&first.cause)?;
                Ok(Cycle {
                    head,
                    arrows: Seq::from_vec(arrows),
                })
            }
            None => unreachable!(),
        }
    }
}
