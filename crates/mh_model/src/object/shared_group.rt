//! A group as it is written, whose copies share one piece of memory.
ghost use Rattle.std.specs.Prelude.{◌≡◌, IfOk};

use mh_group::{Group, Written};
use std::alloc::{AllocError, Global};
use std::marker::Model;
use std::rc::Rc;

/// A group that the tables allow. A contract sees what is written.
#[derive(Drop)]
pub struct SharedGroup {
    shared: Rc<Group>,
}

impl Model for SharedGroup {
    ghost use Rattle.mh_group.specs.declared.written.Written.{Written};

    ghost Value = { Written };

    ghost view = { λ g. g.shared.value };
}

impl SharedGroup {
    pub fn new(alloc: Global, group: Group) -> Result<SharedGroup, AllocError>
        ensures { IfOk result (λ shared. shared ≡ group) }
    {
        let shared = Rc::new(alloc, group)?;
        Ok(SharedGroup { shared })
    }

    /// The group.
    pub fn group(&self) -> &Group
        ensures { result.now ≡ self.now }
    {
        self.shared.as_ref()
    }

    /// What is written.
    pub fn written(&self) -> &Written
        ensures { result.now ≡ self.now }
    {
        self.shared.as_ref().written()
    }
}

impl Clone for SharedGroup {
    ghost is_clone = { λ group copy. copy ≡ group };

    fn clone(&self) -> Result<SharedGroup, AllocError> {
        Ok(SharedGroup {
            shared: self.shared.clone()?,
        })
    }
}
