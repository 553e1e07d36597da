//! Seals: the digest of a group, by octets of which others tell the digest, and texts that are read or refused.
use crate::cases::all_hold;
use mh_cases::{Question, bytes, placed, said};
use mh_codec::decode_group;
use mh_group::Group;
use mh_seal::{Digest, SealError, read_seal, seal_text};
use mh_text::read_group;
use std::alloc::Global;

/// The octets of a group, and their SHA-256 as `sha256sum` tells it.
static OCTETS: &str = r#"
\a00a300804037e2f61020100\ => \0a02b04a662868c696b53018452e1602c8245443c51203967e068a44a2807422\"#;

/// The same group, written: white space and comments make no difference, another number does.
static WRITTEN: &str = r#"
{:Application ("~/a" 0) } => \0a02b04a662868c696b53018452e1602c8245443c51203967e068a44a2807422\;;
// the start|{ :Application   ( "~/a" 0 )|} => \0a02b04a662868c696b53018452e1602c8245443c51203967e068a44a2807422\;;
{:Application ("~/b" 0) } => \465de572240209aa0693c21af813f70ac5e9b8dd8d95838e7c3835149c3ba251\"#;

struct Octets;

impl Question for Octets {
    fn answer(alloc: Global, _: &str, octets: &[u8]) -> Option<Vec<u8>> {
        let tags = mh_cases::profile(alloc)?;
        digest_of(alloc, &decode_group(alloc, &tags, octets).ok()?)
    }
}

struct Written;

impl Question for Written {
    fn answer(alloc: Global, _: &str, text: &[u8]) -> Option<Vec<u8>> {
        digest_of(alloc, &read_group(alloc, text).ok()?)
    }
}

fn digest_of(alloc: Global, group: &Group) -> Option<Vec<u8>> {
    let digest = Digest::of_group(alloc, group).ok()?;
    said(alloc, digest.bytes())
}

#[test]
fn digests_groups(rt: HostRuntime) {
    all_hold::<Octets>(&rt, rt.alloc(), OCTETS);
    all_hold::<Written>(&rt, rt.alloc(), WRITTEN);
}

/// A seal of two groups. Its first line has number 1, its last one 13.
static SEAL: &str = "redplay seal 1|start a|\
    group 0a02b04a662868c696b53018452e1602c8245443c51203967e068a44a2807422 here a|\
    group e3b0c44298fc1c149afbf4c8996fb92427ae41e4649b934ca495991b7852b855 late late x|\
    content pictures/1|bound start 12|bound key 2|bound tick 1|bound stream 1|bound engine 1|\
    bound arrive 18446744073709551615|\
    tags e3b0c44298fc1c149afbf4c8996fb92427ae41e4649b934ca495991b7852b855|end|";

/// What of the seal stands first is changed: it is read, and printed as it stands, or its first wrong line is told. A name
/// that stands twice is told where a service begins, as it is of files.
static CHANGES: &str = r#"
end / end => same;; group 0a02 / group 0a03 => same;; tags e / tags f => same;; late late x / here late x => same;;
late late x / late a => same;; here a / here  a => same;; content pictures/1| / => same;;
seal 1 / seal 2 => 71;; seal 1 / seal 01 => 71;; seal 1 / seal  => 71;; redplay seal / redplay sale => 70 1;;
start a / start ../a => 70 2;; start a / Start a => 70 2;; start a| / => 70 2;; start a| / start a|start a| => 70 3;;
group 0a / group 0A => 70 3;; group 0a / group 0 => 70 3;; group 0a / group 0g => 70 3;; 22 here / 22 Here => 70 3;;
22 here / 22  here => 70 3;; here a| / herea| => 70 3;; here a| / here a"| => 70 3;; here a| / here | => 70 3;;
late late x / late ../x => 70 4;; group e3 / grape e3 => 70 4;; x|content / x|kontent => 70 5;;
content pictures/1 / content  => 70 5;; content pictures / contents pictures => 70 5;; start 12 / start 012 => 70 6;;
start 12 / start 1x => 70 6;; start 12 / start  => 70 6;; bound start 12| / => 70 6;;
bound start / bound begin => 70 6;; content pictures/1|bound start 12| / bound start 12|content pictures/1| => 70 6;;
key 2 / kee 2 => 70 7;; tick 1 / tick -1 => 70 8;; tick 1 / tick +1 => 70 8;; stream 1 / stream  1 => 70 9;;
engine 1 / engine => 70 10;; 615| / 616| => 70 11;; 615| / 6150| => 70 11;; tags e / tags E => 70 12;;
tags e / tags  => 70 12;; end| / end => 70 13;; end| / => 70 13;; end| / end | => 70 13;; end| / END| => 70 13;;
end| / end|end| => 70 14;; end| / end|| => 70 14;; end| / end|x => 70 14"#;

struct Changed;

impl Question for Changed {
    fn answer(alloc: Global, asked: &str, _: &[u8]) -> Option<Vec<u8>> {
        let (old, new) = asked.split_once(" /")?;
        let (before, behind) = SEAL.split_once(old)?;
        let new = new.strip_prefix(" ").unwrap_or("");
        let text = bytes(
            alloc,
            format!(in alloc; "{before}{new}{behind}").ok()?.as_str(),
        )?;
        match read_seal(alloc, text.as_slice()) {
            Ok(seal) => same(alloc, &seal, text.as_slice()),
            Err(SealError::Line(line)) => placed(alloc, 70, line),
            Err(SealError::Version) => said(alloc, b"71"),
            Err(SealError::NoMemory) => None,
        }
    }
}

fn same(alloc: Global, seal: &mh_seal::Seal, text: &[u8]) -> Option<Vec<u8>> {
    let printed = seal_text(alloc, seal).ok()?;
    if printed.as_slice() == text {
        said(alloc, b"same")
    } else {
        said(alloc, b"another")
    }
}

#[test]
fn reads_seals(rt: HostRuntime) {
    all_hold::<Changed>(&rt, rt.alloc(), CHANGES);
}
