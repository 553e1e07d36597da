//! What follows from what: a member of a set opens further members and edges.
//!
//! Promise: who has rules tells all of them, in one order, and nothing else; each call puts its items behind those
//! that are in the list, so that one list serves many calls.
use std::alloc::AllocError;

/// A member of a set; sets and members are numbers.
#[derive(Clone, Copy)]
pub struct Fact {
    pub node: usize,
    pub member: usize,
}

/// A member of a set; or an edge, along which all members of one set are members of another.
#[derive(Clone, Copy)]
pub enum Item {
    Member(Fact),
    Edge(usize, usize),
}

/// What is there at the start, and what follows.
pub trait Rules {
    ghost use Rattle.std.specs.Prelude.{◌≡◌, ◌++◌, [], ℕ, false, OnOk};
    ghost use Rattle.mh_flow.specs.Constraints.{ConstraintSystem};

    ghost system: { Self → ConstraintSystem };

    /// How many sets there are.
    fn nodes(&self) -> usize
        ensures { result ≡ (system self.now).nodes };

    /// How many numbers can be members.
    fn width(&self) -> usize
        ensures { result ≡ (system self.now).width };

    /// Whether the edge may be opened more than once. A wrong answer costs time alone.
    fn recurs(&self, from: usize, to: usize) -> bool;

    /// Puts behind these what is there at the start.
    fn starts(&self, items: &mut Vec<Item>) -> Result<(), AllocError>
        ensures { OnOk result (items.new.items ≡ items.old.items ++ (system self.now).starts) };

    /// Whether a member of the set may open something.
    fn opens_at(&self, node: usize) -> bool
        ensures { result ≡ false → (q : ℕ) → (system self.now).opens (record { node = node; member = q }) ≡ [] };

    /// Puts behind these what the member opens.
    fn open(&self, fact: Fact, items: &mut Vec<Item>) -> Result<(), AllocError>
        ensures { OnOk result (items.new.items ≡ items.old.items ++ (system self.now).opens fact) };
}
