//! `LinkedRefs`: the references to which links lead, one behind another.
ghost use Rattle.std.specs.Prelude.{◌≡◌, ◌≢◌, ◌<◌, ◌∷◌, [], suc, length, MatchOption};
ghost use Rattle.mh_stack.specs.References.{ref_at, refs_at};
ghost use Rattle.mh_stack.specs.Rings.{AreIn, next, walk};

use crate::ring::next;
use mh_base::ObjRef;
use std::marker::Model;

/// So many references that are still to come, each under the number to which the one before it leads. A contract sees
/// the list of them.
#[derive(Drop)]
pub struct LinkedRefs<'a> {
    refs: &'a [ObjRef],
    links: &'a [usize],
    number: usize,
    left: usize,
}

impl<'a> Model for LinkedRefs<'a> {
    ghost use Rattle.std.specs.Prelude.{List, length, suc};
    ghost use Rattle.mh_base.specs.declared.obj_ref.ObjRef.{ObjRef};
    ghost use Rattle.mh_stack.specs.References.{refs_at};
    ghost use Rattle.mh_stack.specs.Rings.{AreIn, next, walk};

    ghost Value = { List ObjRef };

    ghost view = { λ l. refs_at l.refs.now (walk (next l.links.now) l.left l.number) };

    ghost invariant = { λ l. AreIn (suc (length l.refs.now)) (walk (next l.links.now) l.left l.number) };
}

impl<'a> LinkedRefs<'a> {
    pub fn new(refs: &'a [ObjRef], links: &'a [usize], left: usize) -> LinkedRefs<'a>
        requires { AreIn (suc (length refs.now)) (walk (next links.now) left 0) }
        ensures { result ≡ refs_at refs.now (walk (next links.now) left 0) }
    {
        LinkedRefs {
            refs,
            links,
            number: 0,
            left,
        }
    }

    /// The next reference.
    pub fn next(&mut self) -> Option<&'a ObjRef>
        ensures { MatchOption result ((self.old ≡ []) × (self.new ≡ [])) (λ r. self.old ≡ r.now ∷ self.new) }
    {
        let left = self.left;
        if left == 0 {
            return None;
        }
        let number = next(self.links, self.number);
        self.left = left - 1;
        self.number = number;
        Some(ref_under(self.refs, number))
    }
}

/// The reference under a number.
fn ref_under(refs: &[ObjRef], number: usize) -> &ObjRef
    requires some { number ≢ 0 }
    requires known { number < suc (length refs.now) }
    ensures { result.now ≡ ref_at refs.now number }
{
    &refs[number - 1]
}
