//! Content files of a folder that are too many: what is written in place of a play.
use crate::cases::all_hold;
use crate::playing::{DAY, File, played};
use mh_base::GroupName;
use mh_cases::{Question, number};
use std::alloc::Global;

/// A file of this path and of so many octets.
fn long_file(alloc: Global, path: &str, length: usize) -> Option<File> {
    let name = GroupName::of_path(alloc, path.as_bytes()).ok();
    name.zip(vec![in alloc; b'x'; length].ok())
}

/// Puts the text of an application that names so many files, `f0`, `f1`, .. , in the actions of a link that
/// is not done.
fn put_naming(alloc: Global, text: &mut Vec<u8>, count: u32) -> Option<()> {
    let front =
        b"{:Application (\"~/a\" 0) :Items ( {:ContentRefVar 1 :OrigValue :ContentRef (\"f0\") } \
        {:Link 2 :EventSource 0 :EventType EngineEvent :LinkEffect ( ";
    text.extend_from_slice(front).ok()?;
    for at in 0..count {
        let action = format!(in alloc;
            ":SetVariable (1 :GContentRef :ContentRef (\"f{at}\")) "
        ).ok()?;
        text.extend_from_slice(action.as_bytes()).ok()?;
    }
    text.extend_from_slice(b") } ) }").ok()
}

/// Puts an application that names so many files, and so many files.
fn add_crowd(alloc: Global, files: &mut Vec<File>, named: u32, count: u32) -> Option<()> {
    let mut text = Vec::new(alloc);
    let put = put_naming(alloc, &mut text, named);
    let name = GroupName::of_path(alloc, b"a").ok();
    files.push(name.zip(put.and(Some(text)))?).ok()?;
    for at in 0..count {
        let path = format!(in alloc; "f{at}").ok()?;
        files.push(long_file(alloc, path.as_str(), 1)?).ok()?;
    }
    Some(())
}

/// How many files an application names, and how many there are; what is written where they stand in the
/// folder.
struct Many;

impl Question for Many {
    fn answer(alloc: Global, asked: &str, _: &[u8]) -> Option<Vec<u8>> {
        let (named, count) = number(asked, 0).zip(number(asked, 1))?;
        let mut files = Vec::new(alloc);
        let added = add_crowd(alloc, &mut files, named, count);
        added.and(played(alloc, files.as_slice(), ("a", "run|", false, DAY)))
    }
}

static NUMBERS: &str = r#"
1024 1024 => did 5 idle|total 5|exit 0|;; 1025 1025 => file f1024 41 0|exit 2|;;
1025 1024 => did 5 idle|total 5|exit 0|;; 1024 1025 => did 5 idle|total 5|exit 0|"#;

#[test]
fn presets_what_is_named(rt: HostRuntime) {
    all_hold::<Many>(&rt, rt.alloc(), NUMBERS);
}
