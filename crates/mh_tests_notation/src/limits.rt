//! Lists and files at their limits, in both notations.
use crate::cases::all_hold;
use crate::codec::reading_within as reading_in_shells;
use crate::octets::{APPLICATION, ITEMS, LIST, NUMBER, SCENE, START_UP, Shell};
use crate::text_forms::{ITEMS as PLACE, reading_within};
use mh_cases::building::{application, token_group};
use mh_cases::{Question, are, number, placed, profile, repeated};
use mh_codec::{CodecError, LARGEST_FILE, Why, encode_group};
use mh_group::Group;
use std::alloc::Global;

/// Lists in an ingredient of the textual notation: how many members there may be, and the ingredient
/// with one of them in angle brackets; and what is said of so many members, and of one more.
static TEXTS: &str = r#"
256 {:ListGroup 1 :Positions () :TokenGroupItems (<(2)>)} => read, 24 814;;
4096 {:TokenGroup 1 :TokenGroupItems (<(2)>)} => read, 24 12321;;
4096 {:TokenGroup 1 :TokenGroupItems ((2<()>))} => read, 24 8227;;
4096 {:TokenGroup 1 :MovementTable (<()>)} => read, 24 8223;;
4096 {:TokenGroup 1 :MovementTable ((1)(<1 >))} => read, 24 8227;;
4096 {:ListGroup 1 :Positions (<(1 2)>)} => read, 24 20506;;
4096 {:Stream 1 :NextScenes (<("" 1)>)} => read, 24 24600;;
4096 {:Link 1 :EventSource 1 :EventType UserInput :LinkEffect (:Call(1 2(<:GInteger 1 >)))} => read, 24 49220"#;

/// What is said of an ingredient with so many members in its list.
fn reading_of_text(alloc: Global, count: usize, written: &str) -> Option<Vec<u8>> {
    let (front, rest) = written.split_once('<')?;
    let (member, behind) = rest.split_once('>')?;
    let (member, behind) = (member.as_bytes(), behind.as_bytes());
    let text = repeated(alloc, front.as_bytes(), member, count, behind).ok()?;
    reading_within(alloc, &PLACE, text.as_slice())
}

struct Text;

impl Question for Text {
    fn answer(alloc: Global, asked: &str, _: &[u8]) -> Option<Vec<u8>> {
        let most = number(asked, 0)? as usize;
        let (_, written) = asked.split_once(' ')?;
        let longest = reading_of_text(alloc, most, written);
        let (mut answer, longer) = longest.zip(reading_of_text(alloc, most + 1, written))?;
        let gap = answer.extend_from_slice(b", ");
        let put = answer.extend_from_slice(longer.as_slice());
        gap.and(put).ok().and(Some(answer))
    }
}

#[test]
fn texts_have_short_lists(rt: HostRuntime) {
    all_hold::<Text>(&rt, rt.alloc(), TEXTS);
}

const TOKEN_GROUP: Shell = (Some(12), NUMBER, b"");

const LIST_GROUP: Shell = (Some(11), NUMBER, b"");

/// A list group, with an empty list of positions behind the items.
const LIST_ITEMS: Shell = (Some(11), NUMBER, b"\xbb\x02\x30\x00");

const MEMBERS: Shell = (Some(26), b"", b"");

/// Lists of the binary notation: how many members there may be, where one more is refused, one of them,
/// and the elements around them.
static OCTETS: [(usize, usize, &[u8], &[Shell]); 7] = [
    (
        256,
        1317,
        b"\x30\x03\x02\x01\x01",
        &[LIST, MEMBERS, LIST_ITEMS, LIST, ITEMS, SCENE],
    ),
    (
        4096,
        20517,
        b"\x30\x03\x02\x01\x01",
        &[LIST, MEMBERS, TOKEN_GROUP, LIST, ITEMS, SCENE],
    ),
    (
        4096,
        32805,
        b"\x30\x06\x02\x01\x00\x02\x01\x00",
        &[LIST, (Some(27), b"", b""), LIST_GROUP, LIST, ITEMS, SCENE],
    ),
    (
        4096,
        12329,
        b"\x02\x01\x05",
        &[
            LIST,
            LIST,
            (Some(25), b"", b""),
            TOKEN_GROUP,
            LIST,
            ITEMS,
            SCENE,
        ],
    ),
    (
        4096,
        8236,
        b"\x30\x00",
        &[
            (None, NUMBER, b""),
            LIST,
            MEMBERS,
            TOKEN_GROUP,
            LIST,
            ITEMS,
            SCENE,
        ],
    ),
    (
        4096,
        24613,
        b"\xbf\x3f\x03\x02\x01\x05",
        &[
            LIST,
            (Some(124), b"\x02\x01\x00\x02\x01\x05", b""),
            LIST,
            START_UP,
            APPLICATION,
        ],
    ),
    (
        4096,
        40982,
        b"\xbf\x70\x07\x30\x05\x04\x00\x02\x01\x00",
        &[LIST, START_UP, APPLICATION],
    ),
];

/// The number and the offset of the refusal where so many members stand in the list, if there is one.
fn reading_of_list(
    alloc: Global,
    count: usize,
    member: &[u8],
    shells: &[Shell],
) -> Option<Vec<u8>> {
    let members = repeated(alloc, b"", member, count, b"").ok()?;
    reading_in_shells(alloc, shells, members.as_slice())
}

/// Whether the list is read with so many members, and refused at this offset with one more.
fn is_longest(
    alloc: Global,
    most: usize,
    offset: usize,
    member: &[u8],
    shells: &[Shell],
) -> Option<bool> {
    let more = most.checked_add(1)?;
    let refused = placed(alloc, 13, offset)?;
    let is_read = are(reading_of_list(alloc, most, member, shells), b"read");
    let longer = reading_of_list(alloc, more, member, shells);
    Some(is_read && are(longer, refused.as_slice()))
}

#[test]
fn octets_have_short_lists(rt: HostRuntime) {
    for (most, offset, member, shells) in &OCTETS {
        let is_longest = is_longest(rt.alloc(), *most, *offset, *member, *shells);
        assert!(rt; is_longest == Some(true), "{offset}");
    }
}

/// How many octets the group is written in, or `TOO_LONG`.
fn written_length(alloc: Global, group: Option<Group>) -> usize {
    let Some((group, tags)) = group.zip(profile(alloc)) else {
        return 0;
    };
    match encode_group(alloc, &tags, &group) {
        Ok(octets) => octets.len(),
        Err(CodecError::At { why, offset: 0 }) if why == Why::Limit => TOO_LONG,
        Err(_) => 0,
    }
}

const TOO_LONG: usize = 9_999_999;

/// How many letters the name of an application has, how many actions it does at its start, and in how
/// many octets it is written. Five octets stand in front of the name, of its sequence and of the group,
/// there are three of the number, and six of each action with two or four in front of the effect and of
/// its field.
static APPLICATIONS: [(usize, usize, usize); 5] = [
    (3, 1, 22),
    (3, 4096, 24598),
    (3, 4097, TOO_LONG),
    (LARGEST_FILE - 22, 0, LARGEST_FILE),
    (LARGEST_FILE - 21, 0, TOO_LONG),
];

/// How many members a token group has, how many slots each, and whether it is written.
static TOKEN_GROUPS: [(u32, u32, bool); 4] = [
    (4096, 0, true),
    (4097, 0, false),
    (1, 4096, true),
    (1, 4097, false),
];

#[test]
fn writes_short_lists(rt: HostRuntime) {
    let alloc = rt.alloc();
    for (letters, actions, length) in &APPLICATIONS {
        let found = written_length(alloc, application(alloc, *letters, *actions));
        assert!(rt; found == *length, "{letters} with {actions}");
    }
    for (members, slots, is_written) in &TOKEN_GROUPS {
        let found = written_length(alloc, token_group(alloc, *members, *slots));
        assert!(rt;
            found > 0 && (found < TOO_LONG) == *is_written,
            "{members} with {slots}"
        );
    }
}

/// Whole files at their limit, which are no groups.
#[test]
fn reads_short_files(rt: HostRuntime) {
    let alloc = rt.alloc();
    assert!(rt;
        are(
            reading_of_list(alloc, LARGEST_FILE + 1, b"\x00", &[]),
            b"13 0"
        )
    );
    assert!(rt; are(reading_of_list(alloc, LARGEST_FILE, b"\x00", &[]), b"10 0"));
}
