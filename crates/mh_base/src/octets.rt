//! `Octets`: a string of octets that several values share.
ghost use Rattle.std.specs.Prelude.{◌≡◌, length, IfOk, nat_eq};
ghost use Rattle.std.specs.Cmp.Lexicographic.{pointwise, nat_list_eq_equiv};
ghost use Rattle.std.specs.Cmp.{partial_equiv_from_equiv};

use std::alloc::{AllocError, Global};
use std::marker::Model;
use std::rc::Rc;

/// An octet string (ISO/IEC 13522-5, OctetString). It is never written in place, so its copies share
/// one piece of memory. A contract sees the list of its octets.
#[derive(Debug, Drop)]
pub struct Octets {
    shared: Rc<Vec<u8>>,
}

impl Model for Octets {
    ghost use Rattle.std.specs.Prelude.{ℕ, List};

    ghost Value = { List ℕ };

    ghost view = { λ o. o.shared.value.items };
}

impl Octets {
    pub fn from_vec(alloc: Global, bytes: Vec<u8>) -> Result<Octets, AllocError>
        ensures { IfOk result (λ octets. octets ≡ bytes.items) }
    {
        let shared = Rc::new(alloc, bytes)?;
        Ok(Octets { shared })
    }

    pub fn from_slice(alloc: Global, bytes: &[u8]) -> Result<Octets, AllocError>
        ensures { IfOk result (λ octets. octets ≡ bytes.now) }
    {
        Octets::from_vec(alloc, Vec::from_slice(alloc, bytes)?)
    }

    pub fn as_slice(&self) -> &[u8]
        ensures { result.now ≡ self.now }
    {
        self.shared.as_ref().as_slice()
    }
}

impl Clone for Octets {
    ghost is_clone = { λ octets copy. copy ≡ octets };

    fn clone(&self) -> Result<Octets, AllocError> {
        Ok(Octets {
            shared: self.shared.clone()?,
        })
    }
}

impl PartialEq for Octets {
    ghost eq = { pointwise nat_eq };

    ghost laws = { partial_equiv_from_equiv nat_list_eq_equiv };

    fn eq(&self, other: &Octets) -> bool {
        self.as_slice() == other.as_slice()
    }
}

impl Eq for Octets {
    ghost laws = { nat_list_eq_equiv };
}
