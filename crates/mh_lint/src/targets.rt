//! `Targets`: what actions are done to, and whether an object may be among it.
ghost use Rattle.std.specs.Prelude.{◌≡◌, ◌||◌, IfOk, OnOk};
ghost use Rattle.std.specs.List.{list_any};
ghost use Rattle.mh_model.specs.Reference.{same_key};
ghost use Rattle.mh_lint.specs.Uses as spec;

use indexmap::IndexSet;
use mh_base::ObjRef;
use mh_model::Target;
use std::alloc::{AllocError, Global};
use std::marker::Model;

/// What actions are done to. A contract sees the list of it; whether an object is named there is asked of a set.
#[derive(Drop)]
pub(crate) struct Targets {
    list: Vec<Target>,
    /// The objects that are named.
    named: IndexSet<ObjRef>,
    /// Whether a variable is gone through, which may refer to any object.
    goes_through: bool,
}

impl Model for Targets {
    ghost use Rattle.std.specs.Prelude.{List};
    ghost use Rattle.mh_model.specs.declared.act.Target.{Target as TargetValue};
    ghost use Rattle.mh_lint.specs.Uses.{AreFound};

    ghost Value = { List TargetValue };

    ghost view = { λ t. t.list.items };

    ghost invariant = { λ t. AreFound t.list.items t.named.keys t.goes_through };
}

impl Targets {
    /// These targets.
    pub(crate) fn of(alloc: Global, list: Vec<Target>) -> Result<Targets, AllocError>
        ensures { IfOk result (λ targets. targets ≡ list.items) }
    {
        let named = named_in(alloc, list.as_slice())?;
        let goes_through = go_through(list.as_slice());
        Ok(Targets {
            list,
            named,
            goes_through,
        })
    }

    /// Whether the object may be what one of these leads to.
    pub(crate) fn may_be(&self, at: &ObjRef) -> bool
        ensures { result ≡ spec.is_used self.now at.now }
    {
        self.goes_through || self.named.contains(at)
    }
}

fn named_in(alloc: Global, targets: &[Target]) -> Result<IndexSet<ObjRef>, AllocError>
    ensures { IfOk result (λ named. (r : _) → list_any (same_key r) named.keys ≡ list_any (spec.is_named r) targets.now) }
{
    let mut named = IndexSet::new(alloc);
    for target in targets {
        put_named(&mut named, target)?;
    }
    Ok(named)
}

fn put_named(named: &mut IndexSet<ObjRef>, target: &Target) -> Result<(), AllocError>
    ensures { OnOk result
        ((r : _) → list_any (same_key r) named.new.keys ≡ (list_any (same_key r) named.old.keys || spec.is_named r target.now)) }
{
    match target {
        Target::Direct(at) => {
            named.insert(at.clone()?)?;
            Ok(())
        }
        Target::Through(_) => Ok(()),
    }
}

fn go_through(targets: &[Target]) -> bool
    ensures { result ≡ list_any spec.is_through targets.now }
{
    targets.iter().any(|target| is_through(target))
}

fn is_through(target: &Target) -> bool
    ensures { result ≡ spec.is_through target.now }
{
    matches!(target, Target::Through(_))
}
