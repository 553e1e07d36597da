//! Which refusal comes first.
//!
//! Promise: each function answers what the definition that its clause names says.
ghost use Rattle.std.specs.Prelude.{◌≡◌};
ghost use Rattle.std.specs.Option.{option_cmp};
ghost use Rattle.std.specs.Ordering.{is_ne, nat_cmp};
ghost use Rattle.std.specs.Cmp.Lexicographic.{slice_cmp};
ghost use Rattle.mh_verify.specs.Kinds.{kind_number};
ghost use Rattle.mh_verify.specs.Least.{lesser};
ghost use Rattle.mh_flow.specs.Chains.{by_action_site};
ghost use Rattle.mh_verify.specs.Least.{may_be_sooner, sooner};
ghost use Rattle.mh_verify.specs.Naming.{by_coming};
ghost use Rattle.mh_verify.specs.Order.{by_place, order};

use crate::{Coming, Found, Place, RefusalKind};
use mh_base::ObjRef;
use mh_flow::Link;
use mh_flow::order::{by_config, by_reference};
use std::cmp::Ordering;

fn by_place(first: &Place, second: &Place) -> Ordering
    ensures { result ≡ by_place first.now second.now }
{
    let group = first.group.as_bytes().cmp(&second.group.as_bytes());
    group
        .then(first.object.cmp(&second.object))
        .then(first.index.cmp(&second.index))
}

fn order(first: &Found, second: &Found) -> Ordering
    ensures { result ≡ order first.now second.now }
{
    let place = by_place(&first.place, &second.place);
    place
        .then(by_kind(first.kind, second.kind))
        .then(by_config(&first.config, &second.config))
}

fn by_kind(first: RefusalKind, second: RefusalKind) -> Ordering
    ensures { result ≡ option_cmp nat_cmp (kind_number first) (kind_number second) }
{
    first.number().cmp(&second.number())
}

/// The first of one and the best so far.
pub fn lesser(best: Option<Found>, found: Found) -> Found
    ensures { result ≡ lesser best found }
{
    match best {
        None => found,
        Some(best) => {
            if order(&found, &best).is_lt() {
                found
            } else {
                best
            }
        }
    }
}

// How references came

fn by_action_site(first: &Link, second: &Link) -> Ordering
    ensures { result ≡ by_action_site first.now second.now }
{
    by_reference(&first.key, &second.key).then(first.index.cmp(&second.index))
}

/// Place by place.
fn by_action_sites(first: &[Link], second: &[Link]) -> Ordering
    ensures { result ≡ slice_cmp by_action_site first.now second.now }
{
    let mut first = first;
    let mut second = second;
    while let Some((link, behind)) = first.split_first() {
        let Some((other, others)) = second.split_first() else {
            return Ordering::Greater;
        };
        let order = by_action_site(link, other);
        if order.is_ne() {
            return order;
        }
        first = behind;
        second = others;
    }
    if second.is_empty() {
        Ordering::Equal
    } else {
        Ordering::Less
    }
}

/// By the number of links, then place by place, then by the references.
fn by_coming(first: &Coming, second: &Coming) -> Ordering
    ensures { result ≡ by_coming first.now second.now }
{
    let links = first.chain.len().cmp(&second.chain.len());
    links
        .then(by_action_sites(first.chain.as_slice(), second.chain.as_slice()))
        .then(by_reference(&first.at, &second.at))
}

/// The one of this and of the best so far that came sooner.
pub fn sooner(best: Option<Coming>, coming: Coming) -> Coming
    ensures { result ≡ sooner best coming }
{
    match best {
        None => coming,
        Some(best) => {
            if by_coming(&coming, &best).is_lt() {
                coming
            } else {
                best
            }
        }
    }
}

/// Whether a reference may have come sooner than the best so far, where no chain of it comes before this one: not if the
/// best came by the very places of that chain, and the reference is no smaller.
pub fn may_be_sooner(best: &Option<Coming>, links: &[Link], at: &ObjRef) -> bool
    ensures { result ≡ may_be_sooner best.now links.now at.now }
{
    match best {
        None => true,
        Some(best) => is_apart(best, links) || by_reference(at, &best.at).is_lt(),
    }
}

/// Whether the reference came by other places than those of this chain.
fn is_apart(best: &Coming, links: &[Link]) -> bool
    ensures { result ≡ is_ne (slice_cmp by_action_site best.now.chain links.now) }
{
    by_action_sites(best.chain.as_slice(), links).is_ne()
}
