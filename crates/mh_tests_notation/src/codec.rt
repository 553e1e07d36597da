//! The binary notation: where reading goes wrong, by octets worked out by hand from ITU-T X.690 and the
//! tables of the notation.
use crate::cases::all_hold;
use crate::octets::{APPLICATION, ITEMS, LIST, NUMBER, SCENE, START_UP, Shell, within};
use mh_cases::{Question, are, behind, placed, profile, said, word};
use mh_codec::{CodecError, TagTable, begins_group, decode_group};
use std::alloc::Global;

/// The number and the offset of the refusal under the profile, if there is one.
pub fn reading(alloc: Global, octets: &[u8]) -> Option<Vec<u8>> {
    reading_by(alloc, &profile(alloc)?, octets)
}

/// The same under a table of tags.
pub fn reading_by(alloc: Global, tags: &TagTable, octets: &[u8]) -> Option<Vec<u8>> {
    match decode_group(alloc, tags, octets).err() {
        None => said(alloc, b"read"),
        Some(CodecError::At { why, offset }) => placed(alloc, why.number(), offset),
        Some(CodecError::NoMemory) => None,
    }
}

/// The number and the offset of the refusal of these octets within the shells.
pub fn reading_within(alloc: Global, shells: &[Shell], octets: &[u8]) -> Option<Vec<u8>> {
    reading(alloc, within(alloc, shells, octets).ok()?.as_slice())
}

/// What is said of octets that were cut off, where it is not the same wherever they were cut, or of all.
fn reading_of_cut(alloc: Global, octets: &[u8]) -> Option<Vec<u8>> {
    for end in 0..octets.len() {
        if !are(reading(alloc, &octets[..end]), b"1 0") {
            return placed(alloc, 0, end);
        }
    }
    reading(alloc, octets)
}

/// Whether the octets begin as a group does under the profile.
fn beginning(alloc: Global, octets: &[u8]) -> Option<Vec<u8>> {
    if begins_group(&profile(alloc)?, octets) {
        said(alloc, b"group")
    } else {
        said(alloc, b"other")
    }
}

/// What is said of octets, of what they begin, of octets that were cut off, of the fields of a group, of an
/// action, or of the fields of an ingredient whose class has this number.
pub struct Coded;

impl Question for Coded {
    fn answer(alloc: Global, asked: &str, bytes: &[u8]) -> Option<Vec<u8>> {
        let octets = behind(asked, bytes)?;
        match word(asked, 0) {
            "octets" => reading(alloc, octets),
            "begins" => beginning(alloc, octets),
            "cut" => reading_of_cut(alloc, octets),
            "scene" => reading_within(alloc, &[SCENE_S], octets),
            "application" => reading_within(alloc, &[APPLICATION], octets),
            "action" => reading_within(alloc, &[LIST, START_UP, APPLICATION], octets),
            class => {
                let object: Shell = (Some(class.parse::<u16>().ok()?), NUMBER, b"");
                reading_within(alloc, &[object, LIST, ITEMS, SCENE], octets)
            }
        }
    }
}

/// Octets that are refused, with the number and the offset.
static REFUSED: &str = r#"
octets \a0810a 3008 04037e2f61 020100\ => 3 0 -- a long length;;
octets \a0800000\ => 4 0 -- an open length;; octets \bf1e00\ => 2 0 -- thirty in digits;;
octets \bf800100\ => 2 0 -- a leading 80;;
octets \a00a 3009 04037e2f61 020100\ => 1 2 -- an element past its end;;
octets \a10b 3009 04037e2f73 02020000\ => 5 9 -- a padded integer;;
octets \a00a 3008 04037e2f61 020101\ => 14 9 -- a number other than 0;;
octets \a00a 3008 04037e2f61 020100 00\ => 7 12 -- bytes behind the group;;
octets \a00a 3008 04037e2261 020100\ => 14 4 -- a name with a mark;;
octets \8000\ => 10 0 -- a primitive group;; octets \3000\ => 10 0 -- no group;;
octets \a000\ => 1 2 -- nothing in a group"#;

/// Fields of groups, from 12 on. Those that are refused stand with the number and the offset.
static FIELDS: &str = r#"
application \a11b 3019 bf7e16 bf3d03 020105 bf3d0a 3008 04037e2f61 020107 020110\ => read -- values of variables;;
application \a10e 300c bf7409 020101 bf3f03 020105\ => read -- a value with its kind;;
application \a31a 3018 a216 02010b a803 020100 a903 020106 aa03 0101ff ab02 3000\ => read -- a truth value as data;;
application \a31c 301a a218 02010b a80a 3008 04037e2f73 020103 a903 020101 ab02 3000\ => read -- a named source;;
scene \a403 020103 a403 020103\ => 12 17 -- a field twice;;
scene \a508 020202d0 02020240 a403 020103\ => 12 22 -- fields in another order;;
scene \a403 020103 a302 3000\ => 12 17 -- items behind the fields;;
application \a403 020103\ => 10 12 -- a field of another class;;
application \a307 3005 a403 020101\ => 11 16 -- a missing field;;
application \a307 3005 b103 020101\ => 10 16 -- an unknown class;;
application \a307 3005 a103 020101\ => 10 16 -- a group as an ingredient;;
application \a316 3014 a812 020101 ad06 020118 020120 b005 0403ff0000\ => 14 31 -- a colour of three octets;;
application \a30f 300d a80b 020100 ad06 020118 020120\ => 14 18 -- an ingredient without a number;;
application \a315 3013 a211 02010b a803 020100 a903 020107 ab02 3000\ => 14 28 -- an event type that there is not;;
application \a311 300f a40d 020101 a603 010101 ac03 020105\ => 6 23 -- a truth value of 01;;
scene \a508 02020240 020202d0\ => 14 14 -- a turned screen;;
application \a10b 3009 bf7e06 02010a 020118\ => 1 25 -- a parameter that is not there;;
application \a111 300f bf7e0c 02010a 020118 020110 020101\ => 7 28 -- a parameter too many;;
application \a10e 300c bf7409 020101 bf4303 020105\ => 10 22 -- a value with another kind;;
application \a103 020105\ => 10 14 -- a value of another sort;;
application \a100\ => 1 14 -- no value;; application \a104 3000 3000\ => 7 16 -- two values;;
application \8100\ => 10 12 -- a primitive field"#;

#[test]
fn reads_and_refuses(rt: HostRuntime) {
    all_hold::<Coded>(&rt, rt.alloc(), REFUSED);
}

/// A scene of the name `~/s`.
const SCENE_S: Shell = (Some(1), b"\x30\x08\x04\x03~/s\x02\x01\x00", b"");

#[test]
fn fields_of_groups(rt: HostRuntime) {
    all_hold::<Coded>(&rt, rt.alloc(), FIELDS);
}

static CUT: &str = r#"
cut \a163 3008 04037e2f73 020100 a348 3046 a820 02010a ad06 020118 020120 ae06 02010c 020110 af03 020100
b106 0404ff000000 a222 02010b a803 020100 a903 020106 aa03 020164 ab0e 300c bf7e09 02010a 020118
020110 a403 020103 a508 020202d0 02020240\
=> read"#;

#[test]
fn refuses_what_is_cut_off(rt: HostRuntime) {
    all_hold::<Coded>(&rt, rt.alloc(), CUT);
}

static BEGINNINGS: &str = r#"
begins \a0\ => group;; begins \a100\ => group;; begins \a200\ => other;; begins {: => other;;
begins  => other"#;

#[test]
fn tells_groups_from_their_first_octet(rt: HostRuntime) {
    all_hold::<Coded>(&rt, rt.alloc(), BEGINNINGS);
}
