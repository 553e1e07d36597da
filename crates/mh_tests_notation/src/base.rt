//! Names of groups and their paths, types of events, and lists.
use crate::cases::all_hold;
use mh_base::{EventType, GroupName, NameError, Octets, Seq, Shared};
use mh_cases::{Question, behind, number, said, word};
use std::alloc::{AllocError, Global};

/// The path of a group and a name that it writes, and the path to which the name leads, if to any.
static NAMES: &str = r#"
a x => x;; d/e x => d/x;; d/e/f x/y => d/e/x/y;; d/e /x => x;; d/e ///x => x;; d/e ~x => x;;
d/e ~/x => x;; d/e ~//x => x;; d/e ~/~x => ~x;; d/e ~~x => ~x;; d/e DSM:x => x;;
d/e DSM://x/y => x/y;; d/e DSM:~/x => ~/x;; d/e dsm:x => d/dsm:x;; d/e DSM => d/DSM;;
d/e x y! => d/x y!;; d/e .x => d/.x;; d/e ... => d/...;; d/e  => none;; d/e ~ => none;;
d/e ~/ => none;; d/e DSM: => none;; d/e DSM://a//b => none;; d/e x/ => none;; a ../x => none;;
d/e ../x => none;; a a/./b => none;; a ~/a/.. => none;; a x" => none;; a x\7f\ => none"#;

/// The path to which the name leads.
fn path_of(alloc: Global, from: &[u8], name: &[u8]) -> Option<Vec<u8>> {
    let from = GroupName::of_path(alloc, from).ok()?;
    match GroupName::resolve(alloc, &from, name) {
        Ok(name) => said(alloc, name.as_bytes()),
        Err(NameError::BadName) => said(alloc, b"none"),
        Err(NameError::NoMemory) => None,
    }
}

struct Path;

impl Question for Path {
    fn answer(alloc: Global, asked: &str, bytes: &[u8]) -> Option<Vec<u8>> {
        let from = word(asked, 0).as_bytes();
        path_of(alloc, from, behind(asked, bytes)?)
    }
}

#[test]
fn leads_names_to_paths(rt: HostRuntime) {
    all_hold::<Path>(&rt, rt.alloc(), NAMES);
}

/// How many letters stand behind the beginning of a name, and how long the path is to which the name
/// leads that the group `d/e` writes, if it leads to any.
static LENGTHS: &str = r#"
1 / => 1;; 255 ~/ => 255;; 256 ~/ => none;; 255 DSM: => 255;; 256 DSM: => none;; 253  => 255;;
254  => none"#;

/// How long the path is, or that there is none.
fn length_of(alloc: Global, path: &[u8]) -> Option<Vec<u8>> {
    if path == b"none".as_slice() {
        return said(alloc, path);
    }
    let length = path.len();
    Some(format!(in alloc; "{length}").ok()?.into_bytes())
}

struct Length;

impl Question for Length {
    fn answer(alloc: Global, asked: &str, _: &[u8]) -> Option<Vec<u8>> {
        let front = word(asked, 1);
        let letters = "x".repeat(alloc, number(asked, 0)? as usize).ok()?;
        let name = format!(in alloc; "{front}{letters}").ok()?;
        let path = path_of(alloc, b"d/e", name.as_bytes())?;
        length_of(alloc, path.as_slice())
    }
}

#[test]
fn takes_paths_of_255_bytes(rt: HostRuntime) {
    all_hold::<Length>(&rt, rt.alloc(), LENGTHS);
}

/// Of each number the type of events that has it: one that comes at once, one that waits in the queue,
/// or none.
static EVENTS: &[u8] = b"-sqsssq-qqqssq---ss--sssssssssqq-";

fn letter(number: u32) -> u8 {
    match EventType::of_number(number) {
        Some(event) if event.number() != number => b'?',
        Some(event) if event.is_sync() => b's',
        Some(_) => b'q',
        None => b'-',
    }
}

/// Whether the numbers below 33 have these letters.
fn have_letters(letters: &[u8]) -> bool {
    for number in 0..33 {
        if letters.get(number as usize).copied() != Some(letter(number)) {
            return false;
        }
    }
    letters.len() == 33
}

#[test]
fn knows_the_types_of_events(rt: HostRuntime) {
    assert!(rt; have_letters(EVENTS));
}

fn keeps_octets(alloc: Global) -> Result<bool, AllocError> {
    let octets = Octets::from_slice(alloc, &[7, 0, 255])?;
    Ok(octets.clone()?.as_slice() == [7, 0, 255].as_slice())
}

fn keeps_members(alloc: Global) -> Result<bool, AllocError> {
    let mut list = Seq::new(alloc);
    let first = list.push(5u32);
    let second = list.push(6);
    let is_two = list.len() == 2 && !list.is_empty();
    let shared = Shared::from_vec(alloc, Seq::from_vec(list.into_vec()).into_vec());
    let shared = first.and(second).and(shared)?;
    Ok(is_two && shared.clone()?.as_slice() == [5, 6].as_slice())
}

#[test]
fn keeps_lists(rt: HostRuntime) {
    assert!(rt; keeps_octets(rt.alloc()).unwrap_or(false));
    assert!(rt; keeps_members(rt.alloc()).unwrap_or(false));
}
