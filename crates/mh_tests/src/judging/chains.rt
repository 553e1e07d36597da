//! Chains: how a reference comes to a variable or a list; and the search for first shortest chains and cycles, on a
//! small graph.
use crate::cases::all_hold;
use crate::machine::service::Asked;
use mh_base::{GroupName, ObjRef};
use mh_cases::{said, word};
use mh_flow::chain::chain;
use mh_flow::{Equipped, Link, flow_of};
use mh_model::Config;
use mh_paths::{Arrow, Graph, first_chains, first_cycle, is_chain};
use mh_service::Service;
use std::alloc::Global;

/// The group of this name.
pub fn group(alloc: Global, name: &str) -> Option<GroupName> {
    GroupName::of_path(alloc, name.as_bytes()).ok()
}

/// The object of this number in the group of this name.
pub fn reference(alloc: Global, name: &str, number: &str) -> Option<ObjRef> {
    Some(ObjRef {
        number: number.parse::<u32>().ok()?,
        group: group(alloc, name)?,
    })
}

/// The application `a`, with the scene of this name, or none for `-`.
pub fn config(alloc: Global, scene: &str) -> Option<Config> {
    let scene = match scene {
        "-" => None,
        _ => Some(group(alloc, scene)?),
    };
    Some(Config {
        app: group(alloc, "a")?,
        scene,
    })
}

fn put_link(told: &mut Vec<u8>, alloc: Global, link: &Link) -> Option<()> {
    let key = format!(in alloc; " {} {}", link.key.number, link.index).ok()?;
    let written = format!(in alloc; " > {}", link.written.number).ok()?;
    told.extend_from_slice(key.as_bytes()).ok()?;
    told.extend_from_slice(written.as_bytes()).ok()
}

fn links_told(alloc: Global, links: &[Link]) -> Option<Vec<u8>> {
    let mut told = said(alloc, b"held")?;
    for link in links {
        put_link(&mut told, alloc, link)?;
    }
    Some(told)
}

fn told(alloc: Global, service: &Service, asked: &str) -> Option<Vec<u8>> {
    let config = config(alloc, word(asked, 1));
    let holder = reference(alloc, word(asked, 2), word(asked, 3));
    let at = reference(alloc, word(asked, 4), word(asked, 5));
    let (config, (holder, at)) = config.zip(holder.zip(at))?;
    chain_of(alloc, &Equipped::new(service, &[]), &config, &holder, &at)
}

/// The chain, if the flow has the reference, else that it has not.
fn chain_of(
    alloc: Global,
    whole: &Equipped<'_>,
    config: &Config,
    holder: &ObjRef,
    at: &ObjRef,
) -> Option<Vec<u8>> {
    let (held, links) = traced(alloc, whole, config, holder, at)?;
    chain_told(alloc, held, links)
}

/// Whether the second may be held by the first, and the chain. The flow is gone before anything is told of it.
fn traced(
    alloc: Global,
    whole: &Equipped<'_>,
    config: &Config,
    holder: &ObjRef,
    at: &ObjRef,
) -> Option<(bool, Option<Vec<Link>>)> {
    let Ok(flow) = flow_of(alloc, whole) else {
        return None;
    };
    let held = flow.holds(whole, config, holder, at);
    let chain = chain(alloc, whole, &flow, config, holder, at);
    drop(flow);
    Some((held, chain.ok()?))
}

fn chain_told(alloc: Global, held: bool, links: Option<Vec<Link>>) -> Option<Vec<u8>> {
    match links {
        Some(links) if held => links_told(alloc, links.as_slice()),
        None if !held => said(alloc, b"not held"),
        _ => said(alloc, b"chain and flow differ"),
    }
}

/// How many configurations are reached.
fn count(alloc: Global, service: &Service) -> Option<Vec<u8>> {
    let reached = reached(alloc, &Equipped::new(service, &[]))?;
    Some(format!(in alloc; "{reached}").ok()?.into_bytes())
}

fn reached(alloc: Global, whole: &Equipped<'_>) -> Option<usize> {
    let Ok(flow) = flow_of(alloc, whole) else {
        return None;
    };
    let configs = flow.configs(alloc);
    drop(flow);
    Some(configs.ok()?.len())
}

/// What is answered of a service: `held SCENE GROUP NUMBER GROUP NUMBER`, whether the second may be held by the first and
/// by what chain, or `reached`.
pub fn of_flow(alloc: Global, service: &Service, asked: &str) -> Option<Vec<u8>> {
    match word(asked, 0) {
        "reached" => count(alloc, service),
        _ => told(alloc, service, asked),
    }
}

static CHAINS: &str = r#"
an original value
held - a 1 a 10 @a {:Application ("~/a" 0) :Items ( {:ObjectRefVar 1 :OrigValue 10 } ) }
=> held 1 0 > 1;;
what nobody writes
held - a 1 a 11 @a {:Application ("~/a" 0) :Items ( {:ObjectRefVar 1 :OrigValue 10 } ) }
=> not held;;
what is put into a list and read out of it
held s s 1 s 10 @application @s {:Scene ("~/s" 0) :Items ( {:ObjectRefVar 1 :OrigValue 2 } {:ListGroup 3 :Positions (
( 0 0 ) ) } {:Link 11 :EventSource 0 :EventType UserInput :LinkEffect ( :AddItem (3 1 10) :GetListItem (3 1 1) ) } ) }
=> held 11 1 > 3 11 2 > 1;;
the first of two that are as short
held - a 1 a 9 @a {:Application ("~/a" 0) :OnStartUp ( :SetVariable (1 :GObjectRef :IndirectRef 3) :SetVariable (1
:GObjectRef :IndirectRef 2) ) :Items ( {:ObjectRefVar 1 :OrigValue 1 } {:ObjectRefVar 2 :OrigValue 9 }
{:ObjectRefVar 3 :OrigValue 9 } ) }
=> held 2 0 > 2 0 2 > 1;;
a shorter one behind a longer
held - a 1 a 9 @a {:Application ("~/a" 0) :OnStartUp ( :SetVariable (2 :GObjectRef 9) :SetVariable (1 :GObjectRef
:IndirectRef 2) :SetVariable (1 :GObjectRef 9) ) :Items ( {:ObjectRefVar 1 :OrigValue 1 } {:ObjectRefVar 2 :OrigValue
1 } ) }
=> held 0 3 > 1;;
passages are left out
held q a 1 p 10 @a {:Application ("~/a" 0) :OnStartUp ( :TransitionTo (("~/p" 0)) ) :Items ( {:ObjectRefVar 1
:OrigValue 1 } ) } @p {:Scene ("~/p" 0) :OnStartUp ( :SetVariable (("~/a" 1) :GObjectRef 10) :TransitionTo (("~/q"
0)) ) } @q {:Scene ("~/q" 0) }
=> held 0 1 > 1;;
what is passed is not held before
held - a 1 p 10 @a {:Application ("~/a" 0) :OnStartUp ( :TransitionTo (("~/p" 0)) ) :Items ( {:ObjectRefVar 1
:OrigValue 1 } ) } @p {:Scene ("~/p" 0) :OnStartUp ( :SetVariable (("~/a" 1) :GObjectRef 10) ) }
=> not held;;
two of three scenes are reached
reached @a {:Application ("~/a" 0) :OnStartUp ( :TransitionTo (("~/p" 0)) ) } @p {:Scene ("~/p" 0) :OnStartUp (
:TransitionTo (("~/q" 0)) ) } @q {:Scene ("~/q" 0) } @r {:Scene ("~/r" 0) }
=> 3"#;

#[test]
fn tells_how_it_came(rt: HostRuntime) {
    all_hold::<Asked>(&rt, rt.alloc(), CHAINS);
}

fn labelled(label: u64, to: usize) -> Arrow {
    Arrow {
        label: Some(label),
        to,
    }
}

fn silent(to: usize) -> Arrow {
    Arrow { label: None, to }
}

/// From 0 to 1 and to 2, from 1 silently and from 2 to 3, and from 3 back to 0. Nothing leads to 4.
fn graph(alloc: Global) -> Option<Graph> {
    let mut nodes = Vec::new(alloc);
    let first = Vec::from_slice(alloc, &[labelled(2, 1), labelled(1, 2)]).ok()?;
    nodes.push(first).ok()?;
    nodes.push(Vec::from_slice(alloc, &[silent(3)]).ok()?).ok()?;
    nodes
        .push(Vec::from_slice(alloc, &[labelled(3, 3)]).ok()?)
        .ok()?;
    nodes
        .push(Vec::from_slice(alloc, &[labelled(5, 0)]).ok()?)
        .ok()?;
    nodes.push(Vec::new(alloc)).ok()?;
    Some(Graph { nodes })
}

/// Whether the chain to 3 goes by 1, which is shorter than by 2, and there is none to 4.
fn finds_the_shorter(alloc: Global) -> Option<bool> {
    let graph = graph(alloc)?;
    let starts = [labelled(7, 0)];
    let chains = first_chains(alloc, &graph, &starts).ok()?;
    let wanted = [labelled(7, 0), labelled(2, 1), silent(3)];
    let to_3 = chains.get(3)?.as_ref()?;
    let right = to_3.as_slice() == wanted.as_slice() && chains.get(4)?.is_none();
    Some(right && is_chain(&graph, &starts, &wanted, 3) && !is_chain(&graph, &starts, &wanted, 2))
}

/// Whether the cycle through 0 goes by 1, and there is none through 4.
fn finds_the_cycle(alloc: Global) -> Option<bool> {
    let graph = graph(alloc)?;
    let cycle = first_cycle(alloc, &graph, 0).ok()??;
    let wanted = [labelled(2, 1), silent(3), labelled(5, 0)];
    let none = first_cycle(alloc, &graph, 4).ok()?;
    Some(cycle.as_slice() == wanted.as_slice() && none.is_none())
}

#[test]
fn finds_first_chains(rt: HostRuntime) {
    assert!(rt; finds_the_shorter(rt.alloc()) == Some(true));
    assert!(rt; finds_the_cycle(rt.alloc()) == Some(true));
}
