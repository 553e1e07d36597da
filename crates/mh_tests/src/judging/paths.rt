//! First chains and cycles, in graphs that were drawn by hand.
//!
//! A question is `chain NODE STARTS : ROWS` or `cycle NODE : ROWS`. An arrow is its label, `>` and the node to which it
//! leads; a silent one has no label. Rows are what leaves the nodes 0, 1 and so on, with `/` between them.
use crate::cases::all_hold;
use mh_cases::{Question, said};
use mh_paths::{Arrow, Graph, first_chain, first_cycle, is_chain};
use std::alloc::Global;

fn label(word: &str) -> Option<Option<u64>> {
    if word.is_empty() {
        return Some(None);
    }
    Some(Some(word.parse::<u64>().ok()?))
}

fn arrow(word: &str) -> Option<Arrow> {
    let (front, to) = word.split_once('>')?;
    Some(Arrow {
        label: label(front)?,
        to: to.parse::<usize>().ok()?,
    })
}

fn row(alloc: Global, words: &str) -> Option<Vec<Arrow>> {
    let mut row = Vec::new(alloc);
    for word in words.split_whitespace() {
        row.push(arrow(word)?).ok()?;
    }
    Some(row)
}

fn graph(alloc: Global, rows: &str) -> Option<Graph> {
    let mut nodes = Vec::new(alloc);
    for words in rows.split('/') {
        nodes.push(row(alloc, words)?).ok()?;
    }
    Some(Graph { nodes })
}

fn put_arrow(text: &mut Vec<u8>, alloc: Global, arrow: &Arrow) -> Option<()> {
    let put = match arrow.label {
        None => format!(in alloc; " >{}", arrow.to).ok()?,
        Some(label) => format!(in alloc; " {}>{}", label, arrow.to).ok()?,
    };
    text.extend_from_slice(put.as_bytes()).ok()
}

/// The trail, if there is one and it leads from the starts to the node.
fn told(
    alloc: Global,
    graph: &Graph,
    starts: &[Arrow],
    found: Option<Vec<Arrow>>,
    node: usize,
) -> Option<Vec<u8>> {
    let Some(trail) = found else {
        return said(alloc, b"none");
    };
    if !is_chain(graph, starts, trail.as_slice(), node) {
        return said(alloc, b"no chain");
    }
    let mut text = said(alloc, b"by")?;
    for arrow in &trail {
        put_arrow(&mut text, alloc, arrow)?;
    }
    Some(text)
}

fn chain(alloc: Global, graph: &Graph, starts: &[Arrow], node: usize) -> Option<Vec<u8>> {
    if node >= graph.nodes.len() {
        return None;
    }
    let found = first_chain(alloc, graph, starts, node).ok()?;
    told(alloc, graph, starts, found, node)
}

fn cycle(alloc: Global, graph: &Graph, node: usize) -> Option<Vec<u8>> {
    let found = first_cycle(alloc, graph, node).ok()?;
    match graph.nodes.get(node) {
        None => told(alloc, graph, &[], found, node),
        Some(starts) => told(alloc, graph, starts.as_slice(), found, node),
    }
}

struct Drawn;

impl Question for Drawn {
    fn answer(alloc: Global, asked: &str, _: &[u8]) -> Option<Vec<u8>> {
        let (_, asked) = asked.split_once('\n')?;
        let (front, rows) = asked.split_once(':')?;
        let (kind, front) = front.split_once(' ')?;
        let (node, starts) = front.split_once(' ')?;
        let node = node.parse::<usize>().ok()?;
        let graph = graph(alloc, rows)?;
        let starts = row(alloc, starts)?;
        match kind {
            "chain" => chain(alloc, &graph, starts.as_slice(), node),
            _ => cycle(alloc, &graph, node),
        }
    }
}

static CHAINS: &str = r#"
fewer labels before more, whatever the arrows
chain 4 1>0 : 2>1 >2 / 3>4 / >3 / >4 /
=> by 1>0 >2 >3 >4;;
of as many labels those that come first
chain 3 1>0 : 2>1 2>2 / 5>3 / 4>3 /
=> by 1>0 2>2 4>3;;
an earlier place decides before a later one
chain 2 1>0 2>1 : 9>2 / 1>2 /
=> by 1>0 9>2;;
chains with the same labels so far go on side by side
chain 2 1>0 1>1 : 5>2 / 4>2 /
=> by 1>1 4>2;;
three that have the same labels so far, and one behind them
chain 4 3>3 1>0 1>1 1>2 : 6>4 / 6>4 / 5>4 / 1>4 /
=> by 1>2 5>4;;
over silent arrows the labels are those before them
chain 3 1>0 1>2 : >1 / 3>3 / 2>3 /
=> by 1>2 2>3;;
a silent chain behind a label is not longer
chain 3 1>0 2>3 : >1 / >2 / >3 /
=> by 1>0 >1 >2 >3;;
silent arrows at the beginning
chain 2 >0 5>2 : >1 / 4>2 /
=> by >0 >1 4>2;;
nothing leads there
chain 2 1>0 : 2>1 / 3>0 /
=> none;;
what leads to no node leads nowhere
chain 1 1>7 : 2>1 /
=> none;;
the node is its own start
chain 0 4>0 3>1 : 1>1 / 2>0
=> by 4>0;;
two that have the same labels wait for a third that comes before both
chain 6 1>5 1>3 : / / 7>6 / 2>4 / 7>6 / 2>2 /
=> by 1>3 2>4 7>6"#;

static CYCLES: &str = r#"
of as long cycles the one whose last place comes first
cycle 0 : 1>1 / 2>2 2>3 / 4>0 / 3>0
=> by 1>1 2>3 3>0;;
of as long cycles the one whose first place comes first
cycle 0 : 2>1 1>2 / 1>0 / 9>0
=> by 1>2 9>0;;
two that share a node, seen from it
cycle 0 : 2>1 3>2 / 9>0 / 1>0
=> by 2>1 9>0;;
and from a node of the second
cycle 2 : 2>1 3>2 / 9>0 / 1>0
=> by 1>0 3>2;;
the shorter of two that share a node
cycle 0 : 1>1 5>3 / 1>2 / 1>0 / 9>0
=> by 5>3 9>0;;
silent arrows alone are the shortest
cycle 0 : 1>0 >1 / >0
=> by >1 >0;;
a node that leads to a cycle and is on none
cycle 0 : 1>1 / 1>2 / 1>1
=> none;;
a node behind a cycle
cycle 2 : 1>1 / 1>0 1>2 /
=> none;;
a node between two cycles
cycle 2 : 1>1 / 1>0 1>2 / 1>3 / 1>4 / 1>3
=> none;;
what is no node is on none
cycle 9 : 1>0
=> none"#;

#[test]
fn finds_first_chains_by_hand(rt: HostRuntime) {
    all_hold::<Drawn>(&rt, rt.alloc(), CHAINS);
}

#[test]
fn finds_first_cycles_by_hand(rt: HostRuntime) {
    all_hold::<Drawn>(&rt, rt.alloc(), CYCLES);
}
