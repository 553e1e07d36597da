//! `Walk`: the references on a stack, lent one behind another.
ghost use Rattle.std.specs.Prelude.{◌≡◌, ◌∷◌, ◌++◌, [], reverse, MatchOption};

use crate::linked::LinkedRefs;
use mh_base::ObjRef;
use std::marker::Model;

/// References that are still to come. A contract sees the list of them.
#[derive(Drop)]
pub struct Walk<'a> {
    /// The last of these comes first.
    front: &'a [ObjRef],
    line: LinkedRefs<'a>,
    back: &'a [ObjRef],
}

impl<'a> Model for Walk<'a> {
    ghost use Rattle.std.specs.Prelude.{◌++◌, List, reverse};
    ghost use Rattle.mh_base.specs.declared.obj_ref.ObjRef.{ObjRef};

    ghost Value = { List ObjRef };

    ghost view = { λ w. reverse w.front.now ++ w.line ++ w.back.now };
}

impl<'a> Walk<'a> {
    pub(crate) fn new(front: &'a [ObjRef], line: LinkedRefs<'a>, back: &'a [ObjRef]) -> Walk<'a>
        ensures { result ≡ reverse front.now ++ line.entry ++ back.now }
    {
        Walk { front, line, back }
    }

    /// The next reference.
    #[tactic(auto, using(crate::proofs::WalkLemmas::front_taken, crate::proofs::WalkLemmas::line_taken, crate::proofs::WalkLemmas::back_taken, crate::proofs::WalkLemmas::none_taken))]
    pub fn next(&mut self) -> Option<&'a ObjRef>
        ensures { MatchOption result (self.old ≡ []) (λ r. self.old ≡ r.now ∷ self.new) }
    {
        if let Some((last, others)) = self.front.split_last() {
            self.front = others;
            return Some(last);
        }
        if let Some(at) = self.line.next() {
            return Some(at);
        }
        let (first, others) = self.back.split_first()?;
        self.back = others;
        Some(first)
    }
}
