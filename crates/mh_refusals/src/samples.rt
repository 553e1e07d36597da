//! Samples: of the many objects to which a variable may refer, one of each class, made once for all actions that go through
//! it in a configuration.
//!
//! Promise: a sample has the first object of each class, and the first that is not present; it is made only for variables
//! through which an action comes to objects.
ghost use Rattle.std.specs.Prelude.{◌≡◌, ◌++◌, ◌∷◌, [], IfOk, OnOk, false};
ghost use Rattle.std.specs.List.{list_any};
ghost use Rattle.std.specs.Map.{lookup};
ghost use Rattle.std.specs.Option.{is_some, option_copied};
ghost use Rattle.mh_model.specs.Known.{same_class};
ghost use Rattle.mh_model.specs.Reference.{same_ref};
ghost use Rattle.mh_flow.specs.Solved.{held_by};
ghost use Rattle.mh_verify.specs.Samples as spec;
ghost use Rattle.mh_verify.specs.Samples.{AreSamples, sample};

use crate::scope::Scope;
use indexmap::IndexMap;
use mh_base::{ObjRef, Seq};
use mh_flow::{KnownWith, Present};
use mh_group::{Class, Need};
use mh_model::known::Known;
use mh_model::{Act, Argument, Param, Target};
use std::alloc::{AllocError, Global};
use std::marker::Model;

/// Samples under their variables.
pub type Samples = IndexMap<ObjRef, Seq<ObjRef>>;

/// So many objects are looked at sooner than a sample of them is made and found.
const FEW: usize = 8;

/// What is known where these parts of a service are present and hold this, with samples of what some variables hold.
#[derive(Drop)]
pub struct KnownBySamples<'a> {
    known: KnownWith<'a>,
    samples: &'a Samples,
}

impl<'a> Model for KnownBySamples<'a> {
    ghost use Rattle.mh_verify.specs.Samples.{IsSampled, Sampled};

    ghost Value = { Sampled };

    ghost view = { λ k. record {
      service = k.known.service.now;
      present = k.known.present.now;
      held = k.known.held.now;
      samples = k.samples.now.entries;
    } };

    ghost invariant = { λ k. IsSampled (record {
      service = k.known.service.now;
      present = k.known.present.now;
      held = k.known.held.now;
      samples = k.samples.now.entries;
    }) };
}

impl<'a> KnownBySamples<'a> {
    pub fn new(scope: &'a Scope<'a>, samples: &'a Samples) -> KnownBySamples<'a>
        requires { AreSamples scope.now.present (held_by scope.now.present scope.now.held) samples.now.entries }
        ensures { result ≡ record { service = scope.now.service.now; present = scope.now.present; held = scope.now.held; samples = samples.now.entries } }
    {
        KnownBySamples {
            known: KnownWith {
                service: scope.service,
                present: &scope.present,
                held: &scope.held,
            },
            samples,
        }
    }
}

impl<'a> Known for KnownBySamples<'a> {
    ghost use Rattle.mh_laws.specs.Active.{known_with};
    ghost use Rattle.mh_flow.specs.Solved.{held_by};

    ghost known = { λ k. known_with k.service k.present (held_by k.present k.held) };

    fn class_of(&self, at: &ObjRef) -> Option<Class> {
        self.known.class_of(at)
    }

    fn group_class(&self, at: &ObjRef) -> Option<Class> {
        self.known.group_class(at)
    }

    fn refers(&self, variable: &ObjRef) -> &[ObjRef] {
        self.known.refers(variable)
    }

    fn of_each_class(&self, variable: &ObjRef) -> &[ObjRef] {
        let all = self.known.refers(variable);
        if all.len() <= FEW {
            return all;
        }
        match sample_under(self.samples, variable) {
            Some(sample) => sample.as_slice(),
            None => all,
        }
    }

    fn number(&self, variable: &ObjRef) -> Option<&i32> {
        self.known.number(variable)
    }

    fn takes(&self, program: &ObjRef) -> Option<&[Param]> {
        self.known.takes(program)
    }
}

/// Whether the classes are one, or both of what is not present.
fn same_class(class: Option<Class>, other: Option<Class>) -> bool
    ensures { result ≡ same_class class other }
{
    match (class, other) {
        (None, None) => true,
        (Some(class), Some(other)) => class.number() == other.number(),
        _ => false,
    }
}

fn has_class(classes: &[Option<Class>], class: Option<Class>) -> bool
    ensures { result ≡ list_any (same_class class) classes.now }
{
    classes.iter().any(|other| same_class(class, *other))
}

/// Puts the object behind these, and its class behind theirs, unless one of its class is among them.
fn push_first(
    kept: &mut Seq<ObjRef>,
    classes: &mut Vec<Option<Class>>,
    class: Option<Class>,
    at: &ObjRef,
) -> Result<(), AllocError>
    ensures kept { OnOk result (kept.new ≡ spec.with_first kept.old classes.old.items class at.now) }
    ensures classes { OnOk result (classes.new.items ≡ spec.with_class classes.old.items class) }
{
    if has_class(classes.as_slice(), class) {
        return Ok(());
    }
    classes.push(class)?;
    kept.push(at.clone()?)?;
    Ok(())
}

/// The first of each class of these objects, and the first that is not present.
fn sample(
    alloc: Global,
    present: &Present<'_>,
    objects: &[ObjRef],
) -> Result<Seq<ObjRef>, AllocError>
    ensures { IfOk result (λ kept. kept ≡ sample present.now objects.now) }
{
    let mut kept = Seq::new(alloc);
    let mut classes = Vec::new(alloc);
    for at in objects {
        push_first(&mut kept, &mut classes, present.class_of(at), at)?;
    }
    Ok(kept)
}

/// What is kept under the variable.
fn sample_under<'a>(samples: &'a Samples, variable: &ObjRef) -> Option<&'a Seq<ObjRef>>
    ensures { option_copied result ≡ lookup (same_ref variable.now) samples.now.entries }
{
    samples.get(variable)
}

fn has_sample(samples: &Samples, variable: &ObjRef) -> bool
    ensures { result ≡ is_some (lookup (same_ref variable.now) samples.now.entries) }
{
    sample_under(samples, variable).is_some()
}

/// Puts a sample under the variable, where there is none yet.
fn add(samples: &mut Samples, variable: &ObjRef, sample: Seq<ObjRef>) -> Result<(), AllocError>
    requires { is_some (lookup (same_ref variable.now) samples.old.entries) ≡ false }
    ensures { OnOk result (samples.new.entries ≡ samples.old.entries ++ (variable.now, sample) ∷ []) }
{
    let key = variable.clone()?;
    samples.insert(key, sample)?;
    Ok(())
}

/// Keeps a sample of what the variable may refer to, if that is many and there is none yet.
fn keep(
    alloc: Global,
    samples: &mut Samples,
    scope: &Scope<'_>,
    variable: &ObjRef,
) -> Result<(), AllocError>
    requires { AreSamples scope.now.present (held_by scope.now.present scope.now.held) samples.old.entries }
    ensures { OnOk result (AreSamples scope.now.present (held_by scope.now.present scope.now.held) samples.new.entries) }
{
    let objects = scope.held.of(&scope.present, variable);
    if objects.len() <= FEW || has_sample(samples, variable) {
        return Ok(());
    }
    let kept = sample(alloc, &scope.present, objects)?;
    add(samples, variable, kept)?;
    Ok(())
}

/// Keeps samples for the variables through which the action comes to its target and to the objects that it is given.
pub fn keep_for(
    alloc: Global,
    samples: &mut Samples,
    scope: &Scope<'_>,
    act: &Act,
) -> Result<(), AllocError>
    requires { AreSamples scope.now.present (held_by scope.now.present scope.now.held) samples.old.entries }
    ensures { OnOk result (AreSamples scope.now.present (held_by scope.now.present scope.now.held) samples.new.entries) }
{
    if let Target::Through(variable) = &act.target {
        keep(alloc, samples, scope, variable)?;
    }
    keep_for_arguments(
        alloc,
        samples,
        scope,
        act.name.needs(),
        act.arguments.as_slice(),
    )
}

/// Keeps samples for the variables through which an action comes to the objects that it is given.
fn keep_for_arguments(
    alloc: Global,
    samples: &mut Samples,
    scope: &Scope<'_>,
    needs: &[Need],
    arguments: &[Argument],
) -> Result<(), AllocError>
    requires { AreSamples scope.now.present (held_by scope.now.present scope.now.held) samples.old.entries }
    ensures { OnOk result (AreSamples scope.now.present (held_by scope.now.present scope.now.held) samples.new.entries) }
{
    for (need, argument) in needs.iter().zip(arguments) {
        if let (Need::Ref, Argument::Through(variable, _)) = (need, argument) {
            keep(alloc, samples, scope, variable)?;
        }
    }
    Ok(())
}
