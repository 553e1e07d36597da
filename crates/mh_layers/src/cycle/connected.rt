//! Strongly connected parts, by two walks: one along the arrows, and one back along them.
//!
//! Promise: none but that it ends. `Parts` tries what is found here before it uses it.

use mh_paths::Graph;
use std::alloc::{AllocError, Global};

/// The node to which the arrow with this number leads, of those that leave the node.
fn arrow_at(graph: &Graph, node: usize, number: usize) -> Option<usize> {
    match graph.nodes.get(node) {
        Some(row) => match row.get(number) {
            Some(arrow) => Some(arrow.to),
            None => None,
        },
        None => None,
    }
}

/// As many, all of them none.
fn unmet(alloc: Global, count: usize) -> Result<Vec<Option<usize>>, AllocError> {
    let mut all = Vec::new(alloc);
    for _ in 0..count {
        all.push(None)?;
    }
    Ok(all)
}

/// Goes on to the node, if it was not met.
fn meet(
    followed: &mut [Option<usize>],
    path: &mut Vec<usize>,
    node: usize,
) -> Result<(), AllocError> {
    if node < followed.len() && followed[node].is_none() {
        followed[node] = Some(0);
        path.push(node)?;
    }
    Ok(())
}

/// Follows the next arrow of the last node of the path, or leaves that node.
fn step(
    graph: &Graph,
    followed: &mut [Option<usize>],
    path: &mut Vec<usize>,
    left: &mut Vec<usize>,
    node: usize,
) -> Result<(), AllocError> {
    let number = match followed.get(node) {
        Some(Some(number)) => *number,
        _ => 0,
    };
    match arrow_at(graph, node, number) {
        Some(to) => {
            if node < followed.len() {
                followed[node] = Some(number.saturating_add(1));
            }
            meet(followed, path, to)
        }
        None => {
            path.pop();
            left.push(node)?;
            Ok(())
        }
    }
}

/// All nodes as a walk along the arrows leaves them: each behind those to which it leads, but for cycles.
fn left_in_turn(alloc: Global, graph: &Graph) -> Result<Vec<usize>, AllocError> {
    let mut followed = unmet(alloc, graph.nodes.len())?;
    let mut path = Vec::new(alloc);
    let mut left = Vec::new(alloc);
    for root in 0..graph.nodes.len() {
        meet(followed.as_mut_slice(), &mut path, root)?;
        for _ in 0..u64::MAX {
            let Some(node) = path.last().copied() else {
                break;
            };
            step(graph, followed.as_mut_slice(), &mut path, &mut left, node)?;
        }
    }
    Ok(left)
}

/// Puts the node into the row with this number, if there is one.
fn put_source(rows: &mut [Vec<usize>], number: usize, node: usize) -> Result<(), AllocError> {
    if number < rows.len() {
        rows[number].push(node)?;
    }
    Ok(())
}

/// The nodes from which arrows lead to each.
fn sources_of(alloc: Global, graph: &Graph) -> Result<Vec<Vec<usize>>, AllocError> {
    let mut sources = Vec::new(alloc);
    for _ in 0..graph.nodes.len() {
        sources.push(Vec::new(alloc))?;
    }
    for node in 0..graph.nodes.len() {
        for arrow in &graph.nodes[node] {
            put_source(sources.as_mut_slice(), arrow.to, node)?;
        }
    }
    Ok(sources)
}

/// Gives the part to the node, if it has none, and puts it among those that wait.
fn take(
    parts: &mut [usize],
    waiting: &mut Vec<usize>,
    node: usize,
    part: usize,
) -> Result<(), AllocError> {
    if node < parts.len() && parts[node] == usize::MAX {
        parts[node] = part;
        waiting.push(node)?;
    }
    Ok(())
}

/// Gives the part to all that lead to those that wait and have none.
fn take_all(
    sources: &[Vec<usize>],
    parts: &mut [usize],
    waiting: &mut Vec<usize>,
    part: usize,
) -> Result<(), AllocError> {
    for _ in 0..u64::MAX {
        let Some(node) = waiting.pop() else {
            break;
        };
        if let Some(row) = sources.get(node) {
            for source in row {
                take(parts, waiting, *source, part)?;
            }
        }
    }
    Ok(())
}

/// The part of each node, numbered in an order of the arrows. What leads to the node that was left last, by way of others
/// that have no part, is of its part; so on with the next that has none.
pub(crate) fn parts_of(alloc: Global, graph: &Graph) -> Result<Vec<usize>, AllocError> {
    let left = left_in_turn(alloc, graph)?;
    let sources = sources_of(alloc, graph)?;
    let mut parts = Vec::new(alloc);
    for _ in 0..graph.nodes.len() {
        parts.push(usize::MAX)?;
    }
    let mut waiting = Vec::new(alloc);
    let mut part: usize = 0;
    for node in left.iter().rev() {
        take(parts.as_mut_slice(), &mut waiting, *node, part)?;
        if !waiting.is_empty() {
            take_all(sources.as_slice(), parts.as_mut_slice(), &mut waiting, part)?;
            part = part.saturating_add(1);
        }
    }
    Ok(parts)
}
