//! `Meter`: what prices are added up to, where all that is counted has a number.
use crate::numbered_node::NumberedNode;
use std::alloc::AllocError;

/// What prices are added up to: a cost, a list of nodes, or whether one node is among them.
pub(crate) trait Meter {
    ghost use Rattle.std.specs.Prelude.{◌≡◌, IfOk};
    ghost use Rattle.mh_layers.specs.declared.numbered_node.NumberedNode.{NumberedNode as NumberedNodeLem};
    ghost use Rattle.mh_prices.specs.Meter.{Meter as MeterLem};

    /// What prices have come to so far.
    type Sum: Drop;

    /// What is put aside while the largest of several prices is asked for.
    type Mark: Copy + Drop;

    ghost Seen: { Type 0 };

    ghost Marked: { Type 0 };

    ghost seen: { Self.Sum → Seen };

    ghost marked: { Self.Mark → Marked };

    ghost meter: { Self → MeterLem NumberedNodeLem Seen Marked };

    /// One step more.
    fn one(&self, sum: Self::Sum) -> Self::Sum
        ensures { seen result ≡ (meter self.now).one (seen sum) };

    /// A node more.
    fn node(&self, node: NumberedNode, sum: Self::Sum) -> Result<Self::Sum, AllocError>
        ensures { IfOk result (λ s. seen s ≡ (meter self.now).node node (seen sum)) };

    /// The sum is put aside, and the first of several prices begins.
    fn aside(&self, sum: Self::Sum) -> (Self::Mark, Self::Sum)
        ensures { (marked result.0, seen result.1) ≡ (meter self.now).aside (seen sum) };

    /// One of the prices has come to this, and the next begins.
    fn next(&self, mark: Self::Mark, sum: Self::Sum) -> (Self::Mark, Self::Sum)
        ensures { (marked result.0, seen result.1) ≡ (meter self.now).next (marked mark, seen sum) };

    /// The largest of the prices is added to what was put aside.
    fn close(&self, mark: Self::Mark, sum: Self::Sum) -> Self::Sum
        ensures { seen result ≡ (meter self.now).close (marked mark, seen sum) };
}
