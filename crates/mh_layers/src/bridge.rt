//! Laws between nodes and effects.
//!
//! Promise: what is laid out over nodes is laid out over the effects of the service, and what is not cannot be.
ghost use Rattle.mh_layers.specs.Bridge.{CountedIsMet, NodesAgree, NodesAreExact, NodesCost, LaidByNumber, LayersAreRanks, RanksAreLayers};

/// Prices over nodes come to what prices over effects do, and count what is met alone.
pub fn nodes_agree()
    ensures prices { NodesAgree }
    ensures met { CountedIsMet }
{}

/// Where effects have exact costs, nodes have, and what is laid is these.
pub fn nodes_cost()
    ensures cost { NodesCost }
    ensures exact { NodesAreExact }
{}

/// Ranks of nodes make a layering of effects, and a layering of effects ranks nodes.
pub fn nodes_are_ranked()
    ensures layers { RanksAreLayers }
    ensures ranks { LayersAreRanks }
{}

/// What is laid by numbers is laid by name: exact costs and a layering of the service, or there is none.
pub fn numbers_serve()
    ensures { LaidByNumber }
{}
