//! What cannot be explained: a folder that is not there, or is none.
use mh_look::{Failure, line_of, run_task};
use std::rt::Runtime;

/// Why what these words ask for is not done. None where it is, and where they ask for nothing.
pub fn failure_of<R: Runtime + AllocGlobal>(rt: &R, words: &[&str]) -> Option<Failure> {
    let task = line_of(rt.alloc(), words).ok()?;
    let failure = run_task(rt, &task, false).err();
    drop(task);
    failure
}

/// Whether it is told that the folder cannot be read.
fn is_unreadable(failure: Option<Failure>) -> bool {
    let is_unreadable = matches!(&failure, Some(Failure::Unreadable(_)));
    drop(failure);
    is_unreadable
}

#[test]
fn a_folder_that_cannot_be_listed_is_told(rt: HostRuntime) {
    for folder in ["/no/such/folder", "/dev/null"] {
        let words = ["redlook", "why", folder];
        assert!(rt;
            is_unreadable(failure_of(&rt, words.as_slice())),
            "{folder}"
        );
    }
}
