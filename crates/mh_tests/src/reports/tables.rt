//! Scenes with all that the tables have, carried through both notations.
use crate::reports::notations::difference;
use mh_cases::groups::WORDS;
use mh_cases::profile;
use mh_cases::scenes::{ROUNDS, scene};
use mh_codec::encode_group;
use mh_group::{Setting, Written};
use mh_text::{print_group, read_group};
use std::alloc::Global;

/// What goes wrong with the text's group on its way through both notations, or nothing.
fn difference_of(alloc: Global, text: &[u8]) -> Option<&'static str> {
    let group = read_group(alloc, text).ok()?;
    let text = print_group(alloc, &group).ok();
    let (text, octets) = text.zip(encode_group(alloc, &profile(alloc)?, &group).ok())?;
    Some(difference(alloc, text.as_slice(), octets.as_slice()))
}

fn difference_of_round(alloc: Global, round: usize) -> Option<&'static str> {
    difference_of(alloc, scene(alloc, round)?.as_slice())
}

#[test]
fn whole_tables(rt: HostRuntime) {
    for round in 0..ROUNDS {
        let difference = difference_of_round(rt.alloc(), round).unwrap_or("no group");
        assert!(rt; difference.is_empty(), "{difference} in round {round}");
    }
}

/// How many ingredients there are, and how many actions the first of them does.
fn counts(written: &Written) -> Option<(usize, usize)> {
    let items = written.items.as_ref()?;
    let link = items.as_slice().first()?;
    match &link.fields.as_slice().last()?.setting {
        Setting::Effect(actions) => Some((items.len(), actions.len())),
        _ => None,
    }
}

fn counts_of(alloc: Global, text: &[u8]) -> Option<(usize, usize)> {
    counts(read_group(alloc, text).ok()?.written())
}

#[test]
fn all_words_of_the_tables(rt: HostRuntime) {
    assert!(rt; counts_of(rt.alloc(), WORDS) == Some((15, 70)));
    let difference = difference_of(rt.alloc(), WORDS).unwrap_or("no group");
    assert!(rt; difference.is_empty(), "{difference}");
}
