//! The members of sets, and what of them is fresh: new, and not followed yet.
//!
//! Promise: each call puts in just what it says; what is new is fresh, and a set of which something is fresh waits.
ghost use Rattle.std.specs.Prelude.{◌≡◌, ◌<◌, ◌+◌, ◌≤◌, ◌*◌, ◌&&◌, nat_eq, length, IfOk, IfSome, IfNone, OnOk};
ghost use Rattle.mh_flow.specs.Rows.{has, in_word, is_at, width_at};
ghost use Rattle.mh_flow.specs.Membership.{
  rows_of,
  nothing,
  words_of,
  AreMembers,
  IsPut,
  IsReady,
  IsTaken,
  IsDone,
  IsNew,
};

use crate::fixpoint::bits::Bits;
use crate::fixpoint::constraints::Fact;
use crate::fixpoint::rows::{
    are_rows_alike, empty_bits, is_row, lay_out, put_word, take_row, word_at, words_at,
};
use std::alloc::{AllocError, Global};

/// Members of sets.
#[derive(Drop)]
pub struct Members {
    pub alloc: Global,
    /// How many words a row has that is laid out.
    pub words: usize,
    pub known: Vec<Bits>,
    /// Of a set that does not wait the row is empty.
    pub fresh: Vec<Bits>,
    /// The sets of which something may be fresh, each once.
    pub waiting: Vec<usize>,
}

impl Members {
    /// So many sets without members, which are numbers below this width.
    pub fn nothing(alloc: Global, nodes: usize, width: usize) -> Result<Self, AllocError>
        ensures { IfOk result (λ members. rows_of members ≡ nothing nodes (words_of width)) }
    {
        Ok(Members {
            alloc,
            words: width.div_ceil(64),
            known: empty_bits(alloc, nodes)?,
            fresh: empty_bits(alloc, nodes)?,
            waiting: Vec::new(alloc),
        })
    }

    /// A member of a set.
    pub fn add(&mut self, fact: Fact) -> Result<(), AllocError>
        requires members { AreMembers (rows_of self.old) }
        requires node { fact.node < length self.old.known.items }
        requires member { fact.member < 64 * self.old.words }
        ensures members { OnOk result (AreMembers (rows_of self.new)) }
        ensures put { OnOk result (IsPut (rows_of self.old) (rows_of self.new)
            (λ u q. nat_eq u fact.node && nat_eq q fact.member)) }
    {
        self.put(fact.node, fact.member / 64, 1 << (fact.member % 64))?;
        Ok(())
    }

    /// The members of a row into a set.
    pub fn pass(&mut self, row: &Bits, to: usize) -> Result<(), AllocError>
        requires members { AreMembers (rows_of self.old) }
        requires to { to < length self.old.known.items }
        requires row { length row.now ≤ 64 * self.old.words }
        ensures members { OnOk result (AreMembers (rows_of self.new)) }
        ensures put { OnOk result (IsPut (rows_of self.old) (rows_of self.new)
            (λ u q. nat_eq u to && is_at row.now q)) }
    {
        // Most that goes along an edge is there already.
        if is_row(self.known.as_slice(), to, row) {
            return Ok(());
        }
        for at in 0..row.words() {
            self.put(to, at, row.word(at))?;
        }
        Ok(())
    }

    /// All members of a set into another.
    pub fn carry(&mut self, from: usize, to: usize) -> Result<(), AllocError>
        requires members { AreMembers (rows_of self.old) }
        requires from { from < length self.old.known.items }
        requires to { to < length self.old.known.items }
        ensures members { OnOk result (AreMembers (rows_of self.new)) }
        ensures put { OnOk result (IsPut (rows_of self.old) (rows_of self.new)
            (λ u q. nat_eq u to && has self.old.known.items from q)) }
    {
        if are_rows_alike(self.known.as_slice(), from, to) {
            return Ok(());
        }
        let words = words_at(self.known.as_slice(), from);
        for at in 0..words {
            let bits = word_at(self.known.as_slice(), from, at);
            self.put(to, at, bits)?;
        }
        Ok(())
    }

    /// Takes a set that waits, and what is fresh of it.
    pub fn take_waiting(&mut self) -> Option<(usize, Bits)>
        requires { AreMembers (rows_of self.old) }
        ensures some { IfSome result (λ x. IsTaken x.0 x.1 (rows_of self.old) (rows_of self.new)) }
        ensures none { IfNone result (IsDone (rows_of self.old) (rows_of self.new)) }
    {
        match self.waiting.pop() {
            None => None,
            Some(node) => Some((node, take_row(self.alloc, &mut self.fresh, node))),
        }
    }

    /// The members of a word into a set.
    fn put(&mut self, node: usize, at: usize, bits: u64) -> Result<(), AllocError>
        requires members { AreMembers (rows_of self.old) }
        requires node { node < length self.old.known.items }
        requires at { at < self.old.words }
        ensures members { OnOk result (AreMembers (rows_of self.new)) }
        ensures put { OnOk result (IsPut (rows_of self.old) (rows_of self.new)
            (λ u q. nat_eq u node && in_word at bits q)) }
    {
        let new = without(bits, word_at(self.known.as_slice(), node, at));
        if new != 0 {
            self.ready(node)?;
            put_word(&mut self.known, node, at, new);
            put_word(&mut self.fresh, node, at, new);
        }
        Ok(())
    }

    /// Makes a set ready for new members: its rows are laid out, and it waits.
    fn ready(&mut self, node: usize) -> Result<(), AllocError>
        requires members { AreMembers (rows_of self.old) }
        requires node { node < length self.old.known.items }
        ensures { OnOk result (IsReady node (rows_of self.old) (rows_of self.new)) }
    {
        lay_out(&mut self.known, node, self.words)?;
        if words_at(self.fresh.as_slice(), node) == 0 {
            self.waiting.push(node)?;
            lay_out(&mut self.fresh, node, self.words)?;
        }
        Ok(())
    }
}

/// The bits of the one word that the other has not.
fn without(bits: u64, known: u64) -> u64
    ensures { IsNew bits known result }
{
    bits & !known
}
