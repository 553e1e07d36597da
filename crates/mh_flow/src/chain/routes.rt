//! Moves by numbers.
//!
//! Promise: each holder and each action site has a number, those of action sites are in the order of action sites, and the graph has an arrow
//! for each move.
ghost use Rattle.std.specs.Prelude.{◌≡◌, ◌++◌, [], map, replicate, IfOk, OnOk};
ghost use Rattle.mh_flow.specs.Routes as spec;
ghost use Rattle.mh_flow.specs.Routes.{AreActionSites};

use crate::chain::link::Link;
use crate::chain::moves::{ActionSite, Holder, Move};
use indexmap::IndexSet;
use mh_paths::{Arrow, Graph};
use std::alloc::{AllocError, Global};
use std::cmp::Ordering;

/// A copy of the holder.
fn copied_holder(holder: &Holder) -> Result<Holder, AllocError>
    ensures { IfOk result (λ copy. copy ≡ holder.now) }
{
    Ok(Holder {
        config: holder.config.clone()?,
        at: holder.at.clone()?,
    })
}

/// A copy of the action site.
fn copied_action_site(action_site: &ActionSite) -> Result<ActionSite, AllocError>
    ensures { IfOk result (λ copy. copy ≡ action_site.now) }
{
    let key = action_site.key.clone()?;
    Ok(ActionSite {
        key,
        index: action_site.index,
    })
}

/// Puts the holder among these, if it is not there.
fn put_holder(holders: &mut IndexSet<Holder>, holder: &Holder) -> Result<(), AllocError>
    ensures { OnOk result (holders.new.keys ≡ spec.with_holder holders.old.keys holder.now) }
{
    holders.insert(copied_holder(holder)?)?;
    Ok(())
}

/// Puts the holders of the move among these.
fn put_holders_of(holders: &mut IndexSet<Holder>, made: &Move) -> Result<(), AllocError>
    ensures { OnOk result (holders.new.keys
        ≡ spec.with_holder (spec.with_source holders.old.keys made.now.from) made.now.to) }
{
    if let Some(from) = &made.from {
        put_holder(holders, from)?;
    }
    put_holder(holders, &made.to)?;
    Ok(())
}

/// The holders of the moves, each once.
pub(crate) fn holders_met(alloc: Global, moves: &[Move]) -> Result<IndexSet<Holder>, AllocError>
    ensures { IfOk result (λ holders. holders.keys ≡ spec.holders_met moves.now) }
{
    let mut holders = IndexSet::new(alloc);
    for made in moves {
        put_holders_of(&mut holders, made)?;
    }
    Ok(holders)
}

/// The number of the holder.
fn holder_number(holders: &IndexSet<Holder>, holder: &Holder) -> usize
    ensures { result ≡ spec.holder_number holders.now.keys holder.now }
{
    holders.get_index_of(holder).unwrap_or(0)
}

/// The number of the action site.
fn action_site_number(action_sites: &IndexSet<ActionSite>, action_site: &ActionSite) -> usize
    ensures { result ≡ spec.action_site_number action_sites.now.keys action_site.now }
{
    action_sites.get_index_of(action_site).unwrap_or(0)
}

/// Puts the action site among these, if it is not there.
fn put_action_site(
    action_sites: &mut IndexSet<ActionSite>,
    action_site: &ActionSite,
) -> Result<(), AllocError>
    ensures { OnOk result (action_sites.new.keys ≡ spec.with_action_site action_sites.old.keys action_site.now) }
{
    action_sites.insert(copied_action_site(action_site)?)?;
    Ok(())
}

/// Puts the action site of the move among these, if it has one.
fn put_action_site_of(
    action_sites: &mut IndexSet<ActionSite>,
    made: &Move,
) -> Result<(), AllocError>
    ensures { OnOk result (action_sites.new.keys ≡ spec.with_action_site_of action_sites.old.keys made.now.action_site) }
{
    if let Some(action_site) = &made.action_site {
        put_action_site(action_sites, action_site)?;
    }
    Ok(())
}

/// The action sites of the moves, each once, as they come.
fn action_sites_met(alloc: Global, moves: &[Move]) -> Result<IndexSet<ActionSite>, AllocError>
    ensures { IfOk result (λ action_sites. action_sites.keys ≡ spec.action_sites_from [] moves.now) }
{
    let mut action_sites = IndexSet::new(alloc);
    for made in moves {
        put_action_site_of(&mut action_sites, made)?;
    }
    Ok(action_sites)
}

/// By the object, then by the number.
fn by_action_site(first: &ActionSite, second: &ActionSite) -> Ordering
    ensures { result ≡ spec.action_site_cmp first.now second.now }
{
    let group = first.key.group.as_bytes().cmp(&second.key.group.as_bytes());
    let key = group.then(first.key.number.cmp(&second.key.number));
    key.then(first.index.cmp(&second.index))
}

/// The action sites of the moves, in their order.
pub(crate) fn action_sites_of(
    alloc: Global,
    moves: &[Move],
) -> Result<IndexSet<ActionSite>, AllocError>
    ensures { IfOk result (λ action_sites. AreActionSites moves.now action_sites.keys) }
{
    let mut action_sites = action_sites_met(alloc, moves)?;
    action_sites.sort_by(by_action_site)?;
    Ok(action_sites)
}

/// The move as an arrow.
fn arrow_of(holders: &IndexSet<Holder>, action_sites: &IndexSet<ActionSite>, made: &Move) -> Arrow
    ensures { result ≡ spec.arrow_of holders.now.keys action_sites.now.keys made.now }
{
    Arrow {
        label: match &made.action_site {
            None => None,
            Some(action_site) => Some(action_site_number(action_sites, action_site) as u64),
        },
        to: holder_number(holders, &made.to),
    }
}

/// The arrows of those moves that come from nowhere.
pub(crate) fn starts_of(
    alloc: Global,
    holders: &IndexSet<Holder>,
    action_sites: &IndexSet<ActionSite>,
    moves: &[Move],
) -> Result<Vec<Arrow>, AllocError>
    ensures { IfOk result (λ starts. starts.items ≡ spec.starts_of holders.now.keys action_sites.now.keys moves.now) }
{
    let mut starts = Vec::new(alloc);
    for made in moves {
        if made.from.is_none() {
            starts.push(arrow_of(holders, action_sites, made))?;
        }
    }
    Ok(starts)
}

/// As many rows, with no arrows.
fn empty_rows(alloc: Global, count: usize) -> Result<Vec<Vec<Arrow>>, AllocError>
    ensures { IfOk result (λ rows. map (λ row. row.items) rows.items ≡ replicate count []) }
{
    let mut rows = Vec::new(alloc);
    for _ in 0..count {
        rows.push(Vec::new(alloc))?;
    }
    Ok(rows)
}

/// Puts an arrow at the end of the row with this number, if there is one.
fn put_arrow(rows: &mut Vec<Vec<Arrow>>, number: usize, arrow: Arrow) -> Result<(), AllocError>
    ensures { let before = map (λ row. row.items) rows.old.items in
        OnOk result (map (λ row. row.items) rows.new.items ≡ spec.with_arrow before number arrow) }
{
    if number < rows.len() {
        rows[number].push(arrow)?;
    }
    Ok(())
}

/// Puts the arrow of the move into the row of the holder from which it goes.
fn put_move(
    rows: &mut Vec<Vec<Arrow>>,
    holders: &IndexSet<Holder>,
    action_sites: &IndexSet<ActionSite>,
    made: &Move,
) -> Result<(), AllocError>
    ensures { let before = map (λ row. row.items) rows.old.items in OnOk result (map (λ row. row.items) rows.new.items
        ≡ spec.with_move holders.now.keys action_sites.now.keys before made.now made.now.from) }
{
    if let Some(from) = &made.from {
        let number = holder_number(holders, from);
        put_arrow(rows, number, arrow_of(holders, action_sites, made))?;
    }
    Ok(())
}

/// The graph of the moves.
pub(crate) fn graph_of(
    alloc: Global,
    holders: &IndexSet<Holder>,
    action_sites: &IndexSet<ActionSite>,
    moves: &[Move],
) -> Result<Graph, AllocError>
    ensures { IfOk result (λ graph. map (λ row. row.items) graph.nodes.items
        ≡ spec.rows_of holders.now.keys action_sites.now.keys moves.now) }
{
    let mut nodes = empty_rows(alloc, holders.len())?;
    for made in moves {
        put_move(&mut nodes, holders, action_sites, made)?;
    }
    Ok(Graph { nodes })
}

/// Puts the link that the arrow is behind these, if it is one.
fn put_link(
    links: &mut Vec<Link>,
    holders: &IndexSet<Holder>,
    action_sites: &IndexSet<ActionSite>,
    arrow: &Arrow,
) -> Result<(), AllocError>
    ensures { OnOk result (links.new.items
        ≡ links.old.items ++ spec.link_of holders.now.keys action_sites.now.keys arrow.now) }
{
    if let Some(label) = arrow.label {
        if let (Some(action_site), Some(holder)) = (
            action_sites.get_index(label as usize),
            holders.get_index(arrow.to),
        ) {
            let key = action_site.key.clone()?;
            let written = holder.at.clone()?;
            links.push(Link {
                key,
                index: action_site.index,
                written,
            })?;
        }
    }
    Ok(())
}

/// The links that the arrows are.
pub(crate) fn links_of(
    alloc: Global,
    holders: &IndexSet<Holder>,
    action_sites: &IndexSet<ActionSite>,
    trail: &[Arrow],
) -> Result<Vec<Link>, AllocError>
    ensures { IfOk result (λ links. links.items ≡ spec.links_of holders.now.keys action_sites.now.keys trail.now) }
{
    let mut links = Vec::new(alloc);
    for arrow in trail {
        put_link(&mut links, holders, action_sites, arrow)?;
    }
    Ok(links)
}
