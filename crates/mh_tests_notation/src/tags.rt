//! Tables of tags: what their lines give, and groups that are read and written under them.
use crate::cases::all_hold;
use crate::codec::{reading, reading_by};
use mh_cases::examples::all_files;
use mh_cases::groups::{PAIRS, SHAPES, WORDS};
use mh_cases::{Question, are, behind, bytes, placed, profile, said};
use mh_codec::{TagError, TagTable, decode_group, encode_group};
use mh_group::action_name::ALL as ACTIONS;
use mh_group::attribute::ALL as ATTRIBUTES;
use mh_group::class::ALL as CLASSES;
use mh_text::{print_group, read_group};
use std::alloc::Global;

/// What is said of the lines of a table: that they give one, or the number of the refusal and its place.
static TABLES: &str = r#"
table  => good -- no line;; table # class Scene\0a\ => good -- a comment and an empty line;;
table class Scene 31 => good;; table class Scene 31\0a\ => good -- a last line feed;;
table class Scene 00031 => good -- leading zeros;; table class Scene 65535 => good -- the largest;;
table class Scene 65536 => 60 1;; table class Scene 99999999999 => 60 1;; table class Scene  => 60 1;;
table class Scene => 60 1 -- no number;; table class  Scene 31 => 60 1 -- two spaces;;
table  class Scene 31 => 60 1 -- a space in front;; table class Scene 31  => 60 1 -- a space behind;;
table class Scene 31\0d0a\ => 60 1 -- a carriage return;; table class Scene 3x => 60 1;;
table class Scene -1 => 60 1;; table class Scene +1 => 60 1;; table Class Scene 31 => 60 1;;
table class Lnk 3 => 60 1;; table class scene 31 => 60 1;; table class :Scene 31 => 60 1;;
table attr Items 200\0a\attr OrigValue 201\0a\attr Itmes 1 => 60 3;;
table action Run 5\0a\action TransitionTo 6 => good;; table action :Run 5 => 60 1;;
table value GInteger 5\0a\value IndirectRef 6 => good;; table value :GInteger 5 => 60 1;;
table value ContentRef 5\0a\value GContentRef 60 => good;; table value Colour 5 => 60 1;;
table class Link 30\0a\class Link 30 => 60 2 -- a name twice;;
table class Link 30\0a\attr Link 30 => 60 2 -- a name of another context;;
table class Link 3 => 61 1 -- BooleanVar keeps 3;; table class Link 3\0a\class BooleanVar 2 => good;;
table attr Items 4 => 61 2;; table action Run 101 => 61 3;; table value GInteger 62 => 61 4;;
table value GInteger 62\0a\action Run 101 => 61 3 -- the first context;;
table class Link 3\0a\class Lnk 4 => 60 2 -- a wrong line comes first;;
table class Scene 60\0a\attr Items 60\0a\action Run 60 => good -- each context has tags of its own"#;

struct Lined;

impl Question for Lined {
    fn answer(alloc: Global, asked: &str, lines: &[u8]) -> Option<Vec<u8>> {
        match TagTable::read(alloc, behind(asked, lines)?) {
            Ok(_) => said(alloc, b"good"),
            Err(TagError::Line(line)) => placed(alloc, 60, line),
            Err(TagError::Double(context)) => placed(alloc, 61, context as usize),
            Err(TagError::NoMemory) => None,
        }
    }
}

#[test]
fn reads_tables(rt: HostRuntime) {
    all_hold::<Lined>(&rt, rt.alloc(), TABLES);
}

/// A table, the octets behind ` / `, and what is said of them.
static OCTETS: &str = r#"
class Scene 31 / \bf1f0a300804037e2f73020100\ => read;;
class Scene 31 / \a10a300804037e2f73020100\ => 10 0;;
# none / \bf1f0a300804037e2f73020100\ => 10 0;; # none / \a10a300804037e2f73020100\ => read;;
class Scene 16384 / \bf8180000a300804037e2f73020100\ => read;;
class Scene 5\0a\class OStringVar 1 / \a50a300804037e2f73020100\ => read;;
class Scene 5\0a\class OStringVar 1 / \a10a300804037e2f73020100\ => 10 0 -- no group;;
attr SceneCS 50 / \a115 3008 04037e2f73 020100 bf3208 020202d0 02020240\ => read;;
attr SceneCS 50 / \a114 3008 04037e2f73 020100 a508 020202d0 02020240\ => 10 12"#;

struct Under;

impl Question for Under {
    fn answer(alloc: Global, asked: &str, _: &[u8]) -> Option<Vec<u8>> {
        let (lines, octets) = asked.split_once(" / ")?;
        let lines = bytes(alloc, lines)?;
        let octets = bytes(alloc, octets)?;
        let tags = TagTable::read(alloc, lines.as_slice()).ok()?;
        reading_by(alloc, &tags, octets.as_slice())
    }
}

#[test]
fn reads_octets_by_a_table(rt: HostRuntime) {
    all_hold::<Under>(&rt, rt.alloc(), OCTETS);
}

/// Puts a line that gives a tag.
fn put_line(alloc: Global, lines: &mut Vec<u8>, front: &str, word: &[u8], tag: u32) -> Option<()> {
    lines.extend_from_slice(front.as_bytes()).ok()?;
    lines.extend_from_slice(word).ok()?;
    let end = format!(in alloc; " {tag}\n").ok()?;
    lines.extend_from_slice(end.as_bytes()).ok()
}

/// The names of the tags around values, in the order of their numbers.
static VALUES: [&[u8]; 7] = [
    b"ContentRef",
    b"IndirectRef",
    b"GBoolean",
    b"GInteger",
    b"GOctetString",
    b"GObjectRef",
    b"GContentRef",
];

/// A table in which every tag is another than the profile's: those of each context follow one another, the other way
/// round, from a number on.
fn other_lines(alloc: Global) -> Option<Vec<u8>> {
    let mut lines = Vec::new(alloc);
    let mut tag = 400;
    for class in &CLASSES {
        put_line(alloc, &mut lines, "class ", class.word(), tag)?;
        tag = tag.checked_sub(1)?;
    }
    for attribute in &ATTRIBUTES {
        put_line(alloc, &mut lines, "attr ", attribute.word(), tag)?;
        tag = tag.checked_sub(1)?;
    }
    for action in &ACTIONS {
        put_line(alloc, &mut lines, "action ", action.word(), tag)?;
        tag = tag.checked_sub(1)?;
    }
    for word in &VALUES {
        put_line(alloc, &mut lines, "value ", *word, tag)?;
        tag = tag.checked_sub(1)?;
    }
    Some(lines)
}

fn other_table(alloc: Global) -> Option<TagTable> {
    TagTable::read(alloc, other_lines(alloc)?.as_slice()).ok()
}

/// The octets of the text's group under a table.
fn written_by(alloc: Global, tags: &TagTable, text: &[u8]) -> Option<Vec<u8>> {
    let group = read_group(alloc, text).ok()?;
    encode_group(alloc, tags, &group).ok()
}

/// The text of the group that the octets spell under a table.
fn read_by(alloc: Global, tags: &TagTable, octets: &[u8]) -> Option<Vec<u8>> {
    let group = decode_group(alloc, tags, octets).ok()?;
    print_group(alloc, &group).ok()
}

/// The text as it is printed.
fn printed(alloc: Global, text: &[u8]) -> Option<Vec<u8>> {
    let group = read_group(alloc, text).ok()?;
    print_group(alloc, &group).ok()
}

/// Whether a text's group is written under the other table, and read back under it and not under the profile.
fn goes_both_ways(alloc: Global, text: &[u8]) -> Option<bool> {
    let tags = other_table(alloc)?;
    let octets = written_by(alloc, &tags, text)?;
    let back = read_by(alloc, &tags, octets.as_slice());
    let is_same = are(back, printed(alloc, text)?.as_slice());
    Some(is_same && are(reading(alloc, octets.as_slice()), b"10 0"))
}

/// The octets of a text under the profile, where its group goes both ways under the other table.
struct Renumbered;

impl Question for Renumbered {
    fn answer(alloc: Global, _: &str, text: &[u8]) -> Option<Vec<u8>> {
        if goes_both_ways(alloc, text) != Some(true) {
            return None;
        }
        written_by(alloc, &profile(alloc)?, text)
    }
}

/// The first of the shared files that writes a group and does not go both ways, or nothing.
fn first_lost(alloc: Global) -> &'static str {
    for file in all_files().split("\n\n") {
        if is_lost(alloc, file) {
            return file;
        }
    }
    ""
}

/// Whether a shared file, its name in front, writes a group that does not go both ways.
fn is_lost(alloc: Global, file: &str) -> bool {
    match text_of(alloc, file) {
        Some(text) if read_group(alloc, text.as_slice()).is_ok() => {
            goes_both_ways(alloc, text.as_slice()) != Some(true)
        }
        _ => false,
    }
}

/// What a shared file holds: its name and its path stand in front.
fn text_of(alloc: Global, file: &str) -> Option<Vec<u8>> {
    let (_, held) = file.split_once(": ")?;
    let (_, text) = held.split_once(' ')?;
    bytes(alloc, text)
}

#[test]
fn every_tag_may_be_another(rt: HostRuntime) {
    all_hold::<Renumbered>(&rt, rt.alloc(), PAIRS);
    all_hold::<Renumbered>(&rt, rt.alloc(), SHAPES);
    assert!(rt; goes_both_ways(rt.alloc(), WORDS) == Some(true));
    let lost = first_lost(rt.alloc());
    assert!(rt; lost.is_empty(), "{lost}");
}
