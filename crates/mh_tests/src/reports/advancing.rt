//! Many steps made at once, with memory refused in their midst, as between two acts of one list: each of them is made or
//! has not begun, and those that are left come to what they would have come to. The test holds with ample memory, and
//! with any one growth refused (`bench/refusals` refuses each in turn).
use crate::reports::refusing::{PLAYS, Play, engine, is_reported, obey, step, told_again};
use mh_engine::{Engine, Rest};
use std::alloc::Global;

/// How many steps are made at once: fewer than the longest list of acts has, so that they end in its midst, too.
const MANY: u32 = 7;

/// Makes single steps until so many are made.
fn catch_up(single: &mut Engine, taken: u64) -> Option<()> {
    for _ in 0..MANY {
        if taken <= single.taken() {
            break;
        }
        step(single)?;
    }
    if single.taken() == taken {
        Some(())
    } else {
        None
    }
}

/// Whether both show the same, after as many steps.
fn are_alike(alloc: Global, many: &mut Engine, single: &mut Engine) -> bool {
    match (told_again(alloc, many), told_again(alloc, single)) {
        (Some(one), Some(other)) => one.as_slice() == other.as_slice(),
        _ => false,
    }
}

/// Makes the steps that there are to make, many at once, and single ones by the other engine. Where memory was refused
/// some of the many were made: the other engine makes as many, and both have to show the same.
fn run_both(alloc: Global, many: &mut Engine, single: &mut Engine) -> Option<()> {
    for _ in 0..100 {
        let _ = many.advance(MANY);
        catch_up(single, many.taken())?;
        if !are_alike(alloc, many, single) {
            return None;
        }
        if matches!(many.rest(), Rest::Idle | Rest::Ended) {
            return Some(());
        }
    }
    None
}

/// Does what a command of a script says, by both.
fn obey_both(alloc: Global, many: &mut Engine, single: &mut Engine, command: &str) -> Option<()> {
    if command == "run" {
        return run_both(alloc, many, single);
    }
    obey(alloc, many, command)?;
    obey(alloc, single, command)
}

fn obey_all_both(
    alloc: Global,
    many: &mut Engine,
    single: &mut Engine,
    script: &str,
) -> Option<()> {
    for command in script.split('|') {
        obey_both(alloc, many, single, command)?;
    }
    Some(())
}

/// What is played twice. Its owner below is generic, since a function that owns an engine by name is dear to prove.
trait Advanced {
    /// Whether the script leads to the last frame of the report, by many steps at once as by single ones.
    fn advances(&mut self, alloc: Global, single: &mut Self, wanted: &Play) -> bool;
}

impl Advanced for Engine {
    fn advances(&mut self, alloc: Global, single: &mut Engine, wanted: &Play) -> bool {
        obey_all_both(alloc, self, single, wanted.script).is_some()
            && is_reported(alloc, self, wanted)
    }
}

/// None where there is nothing to play.
fn of_both<P: Advanced + Drop>(
    alloc: Global,
    played: Option<(P, P)>,
    wanted: &Play,
) -> Option<bool> {
    let (mut many, mut single) = played?;
    Some(many.advances(alloc, &mut single, wanted))
}

/// Whether many steps at once come to what the report says. None where an engine could not be prepared.
fn is_advanced(alloc: Global, wanted: &Play) -> Option<bool> {
    let many = engine(alloc, wanted.files);
    of_both(alloc, many.zip(engine(alloc, wanted.files)), wanted)
}

#[test]
fn makes_each_step_or_none_of_it(rt: HostRuntime) {
    for wanted in &PLAYS {
        let held = match is_advanced(rt.alloc(), wanted) {
            Some(held) => Some(held),
            None => is_advanced(rt.alloc(), wanted),
        };
        assert!(rt; held == Some(true), "{}", wanted.script);
    }
}
