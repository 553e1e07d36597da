//! What is known of an action in a configuration, where variables refer to what the flow says.
//!
//! Promise: each function answers what the files say, and `refers` what the flow says.
ghost use Rattle.std.specs.Prelude.{◌≡◌};
ghost use Rattle.std.specs.Option.{option_copied, option_map};

use crate::equipped::Equipped;
use crate::flow::Held;
use crate::present::Present;
use mh_base::ObjRef;
use mh_group::Class;
use mh_model::known::Known;
use mh_model::{Fixed, Param};
use mh_resident::takes;

/// What is known where these parts of a service are present and hold this.
#[derive(Drop)]
pub struct KnownWith<'a> {
    pub service: &'a Equipped<'a>,
    pub present: &'a Present<'a>,
    pub held: &'a Held,
}

impl<'a> Known for KnownWith<'a> {
    ghost use Rattle.mh_laws.specs.Active.{known_with};
    ghost use Rattle.mh_flow.specs.Solved.{held_by};

    ghost known = { λ k. known_with k.service.now k.present.now (held_by k.present.now k.held.now) };

    fn class_of(&self, at: &ObjRef) -> Option<Class> {
        self.present.class_of(at)
    }

    fn group_class(&self, at: &ObjRef) -> Option<Class> {
        class_of(self.service.find(at))
    }

    fn refers(&self, variable: &ObjRef) -> &[ObjRef] {
        self.held.of(self.present, variable)
    }

    fn of_each_class(&self, variable: &ObjRef) -> &[ObjRef] {
        self.refers(variable)
    }

    fn number(&self, _variable: &ObjRef) -> Option<&i32> {
        None
    }

    fn takes(&self, program: &ObjRef) -> Option<&[Param]> {
        takes(self.service.programs(), self.present.find(program))
    }
}

fn class_of(part: Option<&Fixed>) -> Option<Class>
    ensures { result ≡ option_map (λ p. p.class) (option_copied part.entry) }
{
    match part {
        None => None,
        Some(part) => Some(part.class),
    }
}
