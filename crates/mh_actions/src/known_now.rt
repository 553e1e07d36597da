//! What is known of the objects that are present.
ghost use Rattle.std.specs.Prelude.{◌≡◌};
ghost use Rattle.std.specs.Option.{option_copied, option_map};
ghost use Rattle.mh_model.specs.Known.{as_integer, class_at};
ghost use Rattle.mh_model.specs.Service.{part_at, parts};
ghost use Rattle.mh_model.specs.State.{all};

use crate::arguments::{held_by, refers};
use mh_base::{ObjRef, Value};
use mh_group::Class;
use mh_model::known::Known;
use mh_model::{Fixed, Object, Param, Signature};
use mh_resident::takes;
use mh_service::Service;
use mh_store::Objects;
use std::slice;

/// A service, the programs that the receiver has for it besides the built-in ones, and the objects
/// of its groups that are present.
#[derive(Clone, Copy)]
pub struct KnownNow<'a> {
    pub service: &'a Service,
    pub programs: &'a [Signature],
    pub objects: &'a Objects,
}

impl Known for KnownNow<'_> {
    ghost use Rattle.mh_model.specs.Known.{known_in};
    ghost use Rattle.mh_model.specs.State.{all};

    ghost known = { λ p.
        known_in (record p.service.now { programs = p.programs.now }) (all p.objects.now) };

    fn class_of(&self, at: &ObjRef) -> Option<Class> {
        present_class(self.objects, at)
    }

    fn group_class(&self, at: &ObjRef) -> Option<Class> {
        written_class(self.service.find(at))
    }

    fn refers(&self, variable: &ObjRef) -> &[ObjRef] {
        match refers(self.objects, variable) {
            Some(at) => slice::from_ref(at),
            None => &[],
        }
    }

    fn of_each_class(&self, variable: &ObjRef) -> &[ObjRef] {
        self.refers(variable)
    }

    fn number(&self, variable: &ObjRef) -> Option<&i32> {
        integer(held_by(self.objects.get(variable)))
    }

    fn takes(&self, program: &ObjRef) -> Option<&[Param]> {
        takes(self.programs, present_part(self.objects, program))
    }
}

/// The class of an object, if it is there.
pub(crate) fn present_class(objects: &Objects, at: &ObjRef) -> Option<Class>
    ensures { result ≡ class_at at.now (parts (all objects.now)) }
{
    written_class(present_part(objects, at))
}

/// What is said of an object, if it is there.
pub(crate) fn present_part<'a>(objects: &'a Objects, at: &ObjRef) -> Option<&'a Fixed>
    ensures { option_copied result ≡ part_at at.now (parts (all objects.now)) }
{
    part_of(objects.get(at))
}

fn part_of(found: Option<&Object>) -> Option<&Fixed>
    ensures { option_copied result ≡ option_map (λ o. o.fixed) (option_copied found.entry) }
{
    match found {
        Some(object) => Some(object.fixed.get()),
        None => None,
    }
}

fn written_class(part: Option<&Fixed>) -> Option<Class>
    ensures { result ≡ option_map (λ p. p.class) (option_copied part.entry) }
{
    match part {
        Some(part) => Some(part.class),
        None => None,
    }
}

fn integer(value: Option<&Value>) -> Option<&i32>
    ensures { option_copied result ≡ as_integer (option_copied value.entry) }
{
    match value {
        Some(Value::Int(number)) => Some(number),
        _ => None,
    }
}
