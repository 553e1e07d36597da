//! What is known of an action where one variable refers to one object alone.
//!
//! Promise: each function answers what is known where all may be held, but for `refers`.
ghost use Rattle.std.specs.Prelude.{◌≡◌};

use mh_base::ObjRef;
use mh_flow::KnownWith;
use mh_group::Class;
use mh_model::Param;
use mh_model::known::Known;
use std::slice;

/// What is known where this variable refers to this object, and no other to any.
#[derive(Drop)]
pub struct KnownAlone<'a> {
    pub known: &'a KnownWith<'a>,
    pub variable: &'a ObjRef,
    pub at: &'a ObjRef,
}

impl<'a> Known for KnownAlone<'a> {
    ghost use Rattle.mh_laws.specs.Active.{known_with};
    ghost use Rattle.mh_verify.specs.Naming.{alone};

    ghost known = { λ k. known_with k.known.now.service.now k.known.now.present.now (alone k.variable.now k.at.now) };

    fn class_of(&self, at: &ObjRef) -> Option<Class> {
        self.known.class_of(at)
    }

    fn group_class(&self, at: &ObjRef) -> Option<Class> {
        self.known.group_class(at)
    }

    fn refers(&self, variable: &ObjRef) -> &[ObjRef] {
        if *variable == *self.variable {
            slice::from_ref(self.at)
        } else {
            &[]
        }
    }

    fn of_each_class(&self, variable: &ObjRef) -> &[ObjRef] {
        self.refers(variable)
    }

    fn number(&self, variable: &ObjRef) -> Option<&i32> {
        self.known.number(variable)
    }

    fn takes(&self, program: &ObjRef) -> Option<&[Param]> {
        self.known.takes(program)
    }
}
