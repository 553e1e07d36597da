//! What has a cost of its own, by numbers.
//!
//! Promise: nodes that are equal are one node.
ghost use Rattle.std.specs.Prelude.{◌≡◌};
ghost use Rattle.std.specs.Cmp.{partial_equiv_from_equiv};
ghost use Rattle.mh_layers.specs.NumberedNodes.{hears_fed, node_fed, kind_number as kind_number_lem, same_flag as same_flag_lem, same_hears as same_hears_lem, same_node as same_node_lem};
ghost use Rattle.mh_layers.specs.NumberedNodeLaws.{hears_laws, hears_alike, node_laws, node_alike};

use crate::bounds::InputKind;
use mh_base::EventType;
use std::hash::{Hash, Hasher};

/// The links that an event can match: those without data, those with a value, by its number among those that links
/// name for the source and type, or those with any one value.
#[derive(Clone, Copy)]
pub enum Hears {
    Plain,
    With(usize),
    Any,
}

/// What has a cost of its own, by the numbers of configurations and objects.
#[derive(Clone, Copy)]
pub enum NumberedNode {
    /// An effect: configuration, object, number.
    Effect(usize, usize, usize),
    /// What an event sets going that is dealt with at once: configuration, source, type, which links.
    Fired(usize, usize, EventType, Hears),
    /// An event that waits: source, type, which links.
    Entry(usize, EventType, Hears),
    /// A change of a list: configuration, list.
    Change(usize, usize),
    /// To leave a configuration: its scene, or all.
    Leave(usize, bool),
    /// To enter a configuration.
    Enter(usize),
    /// An input of a kind that is taken in a configuration.
    Taken(usize, InputKind),
}

fn same_flag(first: bool, second: bool) -> bool
    ensures { result ≡ same_flag_lem first second }
{
    if first { second } else { !second }
}

fn same_hears(first: &Hears, second: &Hears) -> bool
    ensures { result ≡ same_hears_lem first.now second.now }
{
    match (first, second) {
        (Hears::Plain, Hears::Plain) => true,
        (Hears::With(number), Hears::With(other)) => *number == *other,
        (Hears::Any, Hears::Any) => true,
        _ => false,
    }
}

/// A number for each kind.
fn kind_number(kind: InputKind) -> u8
    ensures { result ≡ kind_number_lem kind }
{
    match kind {
        InputKind::Start => 0,
        InputKind::Key => 1,
        InputKind::Tick => 2,
        InputKind::Stream => 3,
        InputKind::Engine => 4,
        InputKind::Arrive => 5,
    }
}

fn same_node(first: &NumberedNode, second: &NumberedNode) -> bool
    ensures { result ≡ same_node_lem first.now second.now }
{
    match (first, second) {
        (NumberedNode::Effect(c, r, n), NumberedNode::Effect(d, q, m)) => *c == *d
            && *r == *q
            && *n == *m,
        (NumberedNode::Fired(c, r, kind, hears), NumberedNode::Fired(d, q, other, hear)) => {
            *c == *d && *r == *q && kind.number() == other.number() && same_hears(hears, hear)
        }
        (NumberedNode::Entry(r, kind, hears), NumberedNode::Entry(q, other, hear)) => {
            *r == *q && kind.number() == other.number() && same_hears(hears, hear)
        }
        (NumberedNode::Change(c, r), NumberedNode::Change(d, q)) => *c == *d && *r == *q,
        (NumberedNode::Leave(c, all), NumberedNode::Leave(d, every)) => *c == *d
            && same_flag(*all, *every),
        (NumberedNode::Enter(c), NumberedNode::Enter(d)) => *c == *d,
        (NumberedNode::Taken(c, kind), NumberedNode::Taken(d, other)) => {
            *c == *d && kind_number(*kind) == kind_number(*other)
        }
        _ => false,
    }
}

impl PartialEq for Hears {
    ghost eq = { same_hears_lem };

    ghost laws = { partial_equiv_from_equiv hears_laws };

    fn eq(&self, other: &Hears) -> bool {
        same_hears(self, other)
    }
}

impl Eq for Hears {
    ghost laws = { hears_laws };
}

impl Hash for Hears {
    ghost hash_input = { hears_fed };

    ghost respects_eq = { hears_alike };

    fn hash<H: Hasher>(&self, state: &mut H) {
        match self {
            Hears::Plain => state.write_u8(0),
            Hears::With(number) => {
                state.write_u8(1);
                number.hash(state);
            }
            Hears::Any => state.write_u8(2),
        }
    }
}

impl PartialEq for NumberedNode {
    ghost eq = { same_node_lem };

    ghost laws = { partial_equiv_from_equiv node_laws };

    fn eq(&self, other: &NumberedNode) -> bool {
        same_node(self, other)
    }
}

impl Eq for NumberedNode {
    ghost laws = { node_laws };
}

impl Hash for NumberedNode {
    ghost hash_input = { node_fed };

    ghost respects_eq = { node_alike };

    fn hash<H: Hasher>(&self, state: &mut H) {
        match self {
            NumberedNode::Effect(config, object, number) => {
                state.write_u8(0);
                config.hash(state);
                object.hash(state);
                number.hash(state);
            }
            NumberedNode::Fired(config, object, kind, hears) => {
                state.write_u8(1);
                config.hash(state);
                object.hash(state);
                kind.number().hash(state);
                hears.hash(state);
            }
            NumberedNode::Entry(object, kind, hears) => {
                state.write_u8(2);
                object.hash(state);
                kind.number().hash(state);
                hears.hash(state);
            }
            NumberedNode::Change(config, object) => {
                state.write_u8(3);
                config.hash(state);
                object.hash(state);
            }
            NumberedNode::Leave(config, all) => {
                state.write_u8(4);
                config.hash(state);
                all.hash(state);
            }
            NumberedNode::Enter(config) => {
                state.write_u8(5);
                config.hash(state);
            }
            NumberedNode::Taken(config, kind) => {
                state.write_u8(6);
                config.hash(state);
                state.write_u8(kind_number(*kind));
            }
        }
    }
}
