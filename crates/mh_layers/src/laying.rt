//! Layers: costs and ranks of nodes and of all that they count, or that there are no ranks.

pub mod costs;
pub(crate) mod diving;
pub(crate) mod roots;
pub mod sums;
pub(crate) mod wants;

ghost use Rattle.std.specs.Prelude.{◌≡◌, [], None, true, false, length, OnOk, OnErr, IfOk, IsErrOf};
ghost use Rattle.std.specs.List.{list_all};
ghost use Rattle.mh_laws.specs.Each.{Each};
ghost use Rattle.mh_layers.specs.Layering.{AreLayers, AreWaiting, CountsKept, Grows, IsNoted, IsPlaced, IsSettled, IsStep, IsWaiting, IsWaitingAt, NoneRanked, has_place, is_laid, laid_in};
ghost use Rattle.mh_layers.specs.Looping.{HasLoop};

use crate::laying::costs::{Costs, Laid};
use crate::laying::sums::CostOrMissing;
use crate::numbered_node::NumberedNode;
use std::alloc::{AllocError, Global};
use std::marker::Model;

/// Nodes with prices.
pub trait Prices {
    ghost use Rattle.std.specs.Prelude.{◌≡◌, IfOk};
    ghost use Rattle.mh_laws.specs.Price.{Price};
    ghost use Rattle.mh_layers.specs.declared.numbered_node.NumberedNode.{NumberedNode as NumberedNodeLem};
    ghost use Rattle.mh_layers.specs.Known.{known_worth, told};
    ghost use Rattle.mh_layers.specs.Layering.{cost_in};

    /// What a node costs, over those that it counts.
    ghost price: { Self → NumberedNodeLem → Price NumberedNodeLem };

    /// The nodes whose prices are known.
    ghost kept: { Self → NumberedNodeLem → Type 0 };

    /// What a node costs, or the first that it counts whose cost is not known. Each that it counts is asked for.
    fn worth(&self, costs: &Costs, node: &NumberedNode) -> Result<CostOrMissing, AllocError>
        ensures { kept self.now node.now → IfOk result (λ worth. worth ≡ known_worth (told (cost_in costs.now)) (price self.now node.now)) };
}

/// Why there are no layers.
#[derive(Clone, Copy)]
pub enum LayersError {
    /// A node counts itself, by way of others.
    Cycle,
    NoMemory,
}

impl From<AllocError> for LayersError {
    ghost use Rattle.mh_layers.specs.declared.laying.LayersError.TheVariants.{NoMemory};

    ghost from_gives = { λ _ e. e ≡ NoMemory };

    fn from(_refused: AllocError) -> LayersError {
        LayersError::NoMemory
    }
}

/// Costs and ranks that are laid so far. A contract sees what is known of each node that has a place.
#[derive(Drop)]
pub struct Laying {
    alloc: Global,
    costs: Costs,
    /// The rank of the next node that is laid.
    next: usize,
}

impl Model for Laying {
    ghost use Rattle.std.specs.Prelude.{List, Option};
    ghost use Rattle.mh_layers.specs.declared.laying.costs.Laid.{Laid as LaidLem};
    ghost use Rattle.mh_layers.specs.declared.numbered_node.NumberedNode.{NumberedNode as NumberedNodeLem};
    ghost use Rattle.mh_layers.specs.Layering.{AreBelow, HasRoom};

    ghost Value = { List (NumberedNodeLem × Option LaidLem) };

    ghost view = { λ l. l.costs };

    ghost invariant = { λ l. AreBelow l.costs l.next × HasRoom l.costs l.next };
}

impl Laying {
    /// Nothing is laid.
    pub fn new(alloc: Global) -> Result<Laying, AllocError>
        ensures { IfOk result (λ laying. laying ≡ []) }
    {
        let costs = Costs::new(alloc)?;
        Ok(Laying {
            alloc,
            costs,
            next: 0,
        })
    }

    pub(crate) fn allocator(&self) -> Global {
        self.alloc
    }

    /// What is known so far.
    pub fn costs(&self) -> &Costs
        ensures { result.now ≡ self.now }
    {
        &self.costs
    }

    /// Makes room for more that is asked for, if there was none left.
    pub(crate) fn widen(&mut self) -> Result<(), AllocError>
        ensures { self.new ≡ self.old }
    {
        let _ = self.costs.len();
        self.costs.widen(self.alloc)
    }

    /// Lays a node with this cost.
    fn note(&mut self, node: NumberedNode, cost: u64) -> Result<(), AllocError>
        requires { laid_in self.old node ≡ None }
        ensures noted { OnOk result (IsNoted self.old self.new node cost) }
        ensures kept { OnErr result (self.new ≡ self.old) }
    {
        let rank = self.next;
        let _ = self.costs.len();
        self.costs.set(node, Some(Laid { cost, rank }))?;
        self.next = rank + 1;
        Ok(())
    }

    /// Gives a node a place, if it has none: whether it had none.
    #[tactic(auto, using(crate::proofs::LayingLemmas::placed_before))]
    pub(crate) fn place(&mut self, node: NumberedNode) -> Result<bool, AllocError>
        ensures placed { IfOk result (λ given. IsPlaced self.old self.new node given) }
        ensures kept { OnErr result (self.new ≡ self.old) }
    {
        let _ = self.costs.len();
        if self.costs.at(&node).is_some() {
            return Ok(false);
        }
        self.costs.set(node, None)?;
        let _ = self.costs.len();
        Ok(true)
    }

    /// Lays a node that is not laid, if all that it counts is: else what it waits for.
    #[tactic(auto, using(crate::proofs::LayingLemmas::noted_layers, crate::proofs::LayingLemmas::noted_grows, crate::proofs::LayingLemmas::settled_noted, crate::proofs::LayingLemmas::settled_waits, crate::proofs::LayingLemmas::grows_same, crate::proofs::LayingLemmas::grows_equal))]
    pub(crate) fn settle<P: Prices>(
        &mut self,
        prices: &P,
        node: &NumberedNode,
    ) -> Result<Option<NumberedNode>, AllocError>
        requires layers { AreLayers (P.price prices.now) (P.kept prices.now) self.old }
        requires free { laid_in self.old node.now ≡ None }
        ensures layers { AreLayers (P.price prices.now) (P.kept prices.now) self.new }
        ensures grows { Grows self.old self.new }
        ensures settled { IfOk result (λ waits. IsSettled (P.price prices.now) (P.kept prices.now) self.old self.new node.now waits) }
    {
        match prices.worth(&self.costs, node)? {
            Ok(cost) => {
                self.note(*node, cost)?;
                Ok(None)
            }
            Err(next) => Ok(Some(next)),
        }
    }

    /// Lays a node that has a place, or gives what it waits for a place: whether something changed.
    #[tactic(auto, using(crate::proofs::LayingLemmas::placed_layers, crate::proofs::LayingLemmas::placed_grows, crate::proofs::LayingLemmas::grows_on, crate::proofs::LayingLemmas::grows_same, crate::proofs::LayingLemmas::settled_step, crate::proofs::LayingLemmas::waits_step, crate::proofs::LayingLemmas::waiting_placed, crate::proofs::LayingLemmas::waiting_true, crate::proofs::LayingLemmas::waiting_laid, crate::proofs::LayingLemmas::same_step))]
    fn advance<P: Prices>(&mut self, prices: &P, node: &NumberedNode) -> Result<bool, AllocError>
        requires layers { AreLayers (P.price prices.now) (P.kept prices.now) self.old }
        requires place { has_place self.old node.now ≡ true }
        ensures layers { AreLayers (P.price prices.now) (P.kept prices.now) self.new }
        ensures grows { Grows self.old self.new }
        ensures step { IfOk result (λ changed. IsStep self.old self.new changed) }
        ensures waiting { IfOk result (λ changed. IsWaiting (P.price prices.now) (P.kept prices.now) self.old node.now changed) }
    {
        if self.costs.laid(node).is_some() {
            return Ok(false);
        }
        match self.settle(prices, node)? {
            None => Ok(true),
            Some(next) => {
                let given = self.place(next)?;
                Ok(given)
            }
        }
    }

    /// The same with the node of the place with this number.
    #[tactic(auto, using(crate::proofs::PlaceLemmas::node_at_there, crate::proofs::LayingLemmas::waiting_at, crate::proofs::LayingLemmas::waiting_past, crate::proofs::LayingLemmas::grows_same, crate::proofs::LayingLemmas::same_step))]
    fn advance_at<P: Prices>(&mut self, prices: &P, place: usize) -> Result<bool, AllocError>
        requires layers { AreLayers (P.price prices.now) (P.kept prices.now) self.old }
        ensures layers { AreLayers (P.price prices.now) (P.kept prices.now) self.new }
        ensures grows { Grows self.old self.new }
        ensures step { IfOk result (λ changed. IsStep self.old self.new changed) }
        ensures waiting { IfOk result (λ changed. IsWaitingAt (P.price prices.now) (P.kept prices.now) self.old place changed) }
    {
        match self.costs.node_at(place) {
            None => Ok(false),
            Some(node) => {
                let changed = self.advance(prices, &node)?;
                Ok(changed)
            }
        }
    }

    /// A round over all places: whether something changed.
    #[tactic(auto, using(crate::proofs::LayingLemmas::grows_on, crate::proofs::LayingLemmas::grows_same, crate::proofs::LayingLemmas::same_step, crate::proofs::LayingLemmas::step_true, crate::proofs::LayingLemmas::step_false, crate::proofs::LayingLemmas::none_waiting, crate::proofs::LayingLemmas::all_changed, crate::proofs::LayingLemmas::waiting_more, crate::proofs::LayingLemmas::waiting_now))]
    fn round<P: Prices>(&mut self, prices: &P) -> Result<bool, AllocError>
        requires layers { AreLayers (P.price prices.now) (P.kept prices.now) self.old }
        ensures layers { AreLayers (P.price prices.now) (P.kept prices.now) self.new }
        ensures grows { Grows self.old self.new }
        ensures step { IfOk result (λ changed. IsStep self.old self.new changed) }
        ensures waiting { IfOk result (λ changed. AreWaiting (P.price prices.now) (P.kept prices.now) self.new (length self.new) changed) }
    {
        let mut changed = false;
        let mut place = 0;
        while place < self.costs.len() {
            if self.advance_at(prices, place)? {
                changed = true;
            }
            place += 1;
        }
        Ok(changed)
    }

    /// Rounds until nothing more changes.
    #[tactic(auto, using(crate::proofs::LayingLemmas::grows_on, crate::proofs::LayingLemmas::grows_same))]
    fn rounds<P: Prices>(&mut self, prices: &P) -> Result<(), AllocError>
        requires layers { AreLayers (P.price prices.now) (P.kept prices.now) self.old }
        ensures layers { AreLayers (P.price prices.now) (P.kept prices.now) self.new }
        ensures grows { Grows self.old self.new }
        ensures waiting { OnOk result (AreWaiting (P.price prices.now) (P.kept prices.now) self.new (length self.new) false) }
    {
        loop {
            if !self.round(prices)? {
                return Ok(());
            }
        }
    }

    /// Gives each of these a place.
    #[tactic(auto, using(crate::proofs::LayingLemmas::placed_layers, crate::proofs::LayingLemmas::placed_grows, crate::proofs::LayingLemmas::grows_on, crate::proofs::LayingLemmas::grows_same))]
    fn places<P: Prices>(&mut self, prices: &P, roots: &[NumberedNode]) -> Result<(), AllocError>
        requires layers { AreLayers (P.price prices.now) (P.kept prices.now) self.old }
        ensures layers { AreLayers (P.price prices.now) (P.kept prices.now) self.new }
        ensures grows { Grows self.old self.new }
        ensures there { OnOk result (list_all (has_place self.new) roots.now ≡ true) }
    {
        for root in roots {
            self.place(*root)?;
        }
        Ok(())
    }

    /// Whether the node is laid.
    pub(crate) fn has_laid(&self, node: &NumberedNode) -> bool
        ensures { result ≡ is_laid self.now node.now }
    {
        self.costs.laid(node).is_some()
    }

    /// Whether all of these are laid.
    pub fn has_all(&self, roots: &[NumberedNode]) -> bool
        ensures { result ≡ list_all (is_laid self.now) roots.now }
    {
        roots.iter().all(|root| self.has_laid(root))
    }

    /// Lays these nodes and all that they count. What was laid stays as it was, also where it cannot be done.
    #[tactic(auto, using(crate::proofs::LayingLemmas::grows_on))]
    pub fn reach<P: Prices>(
        &mut self,
        prices: &P,
        roots: &[NumberedNode],
    ) -> Result<(), LayersError>
        requires layers { AreLayers (P.price prices.now) (P.kept prices.now) self.old }
        requires counted { CountsKept (P.price prices.now) (P.kept prices.now) }
        requires kept { Each (P.kept prices.now) roots.now }
        ensures layers { AreLayers (P.price prices.now) (P.kept prices.now) self.new }
        ensures grows { Grows self.old self.new }
        ensures laid { OnOk result (list_all (is_laid self.new) roots.now ≡ true) }
        ensures cycle { IsErrOf result LayersError.Cycle → NoneRanked (P.price prices.now) (P.kept prices.now) }
        ensures looped { IsErrOf result LayersError.Cycle → HasLoop (P.price prices.now) (P.kept prices.now) }
    {
        self.dives(prices, roots)?;
        if self.has_all(roots) {
            return Ok(());
        }
        self.places(prices, roots)?;
        self.rounds(prices)?;
        if self.has_all(roots) {
            Ok(())
        } else {
            Err(LayersError::Cycle)
        }
    }
}

/// Lays these nodes and all that they count.
#[tactic(auto, using(crate::proofs::LayingLemmas::nothing_laid))]
pub fn lay<P: Prices>(
    alloc: Global,
    prices: &P,
    roots: &[NumberedNode],
) -> Result<Laying, LayersError>
    requires counted { CountsKept (P.price prices.now) (P.kept prices.now) }
    requires kept { Each (P.kept prices.now) roots.now }
    ensures layers { IfOk result (λ laying. AreLayers (P.price prices.now) (P.kept prices.now) laying) }
    ensures laid { IfOk result (λ laying. list_all (is_laid laying) roots.now ≡ true) }
    ensures cycle { IsErrOf result LayersError.Cycle → NoneRanked (P.price prices.now) (P.kept prices.now) }
    ensures looped { IsErrOf result LayersError.Cycle → HasLoop (P.price prices.now) (P.kept prices.now) }
{
    let mut laying = Laying::new(alloc)?;
    laying.reach(prices, roots)?;
    Ok(laying)
}
