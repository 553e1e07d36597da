//! `Shared`: a list that is never written in place, so that its copies share one piece of memory.
ghost use Rattle.std.specs.Prelude.{◌≡◌, IfOk};

use std::alloc::{AllocError, Global};
use std::marker::Model;
use std::rc::Rc;

/// A list whose copies take no memory. A contract sees the list of its members.
#[derive(Drop)]
pub struct Shared<T> {
    members: Rc<Vec<T>>,
}

impl<T> Model for Shared<T> {
    ghost use Rattle.std.specs.Prelude.{List};
    ghost use Rattle.std.specs.Coded.{coded_list};

    ghost Value = { List T };

    ghost coded = { coded_list T.code };

    ghost view = { λ s. s.members.value.items };
}

impl<T: Drop> Shared<T> {
    pub fn from_vec(alloc: Global, members: Vec<T>) -> Result<Shared<T>, AllocError>
        ensures { IfOk result (λ shared. shared ≡ members.items) }
    {
        let members = Rc::new(alloc, members)?;
        Ok(Shared { members })
    }
}

impl<T> Shared<T> {
    pub fn as_slice(&self) -> &[T]
        ensures { result.now ≡ self.now }
    {
        self.members.as_ref().as_slice()
    }
}

impl<T: Drop> Clone for Shared<T> {
    ghost is_clone = { λ shared copy. copy ≡ shared };

    fn clone(&self) -> Result<Shared<T>, AllocError> {
        Ok(Shared {
            members: self.members.clone()?,
        })
    }
}
