//! All cases of a folder, played and told.
use crate::case::{Answer, Call, Case, File};
use crate::comparing::lines_with;
use crate::fault::Fault;
use crate::reader::cases_of;
use crate::telling::{tell_other, tell_unmade};
use mh_folder::{Folder, Unread, folder_of};
use std::alloc::{AllocError, Global};
use std::io;
use std::rt::Runtime;

/// Where the files of cases lie.
const FOLDER: &str = "cases";

/// The exit status where some cases do not hold.
const WRONG: u8 = 1;

/// The exit status where the cases cannot be read.
const UNREADABLE: u8 = 2;

/// The exit status where memory is lacking.
const FAILED: u8 = 4;

/// What makes the calls of cases.
pub trait Player {
    /// What a call writes, and its exit status; none where its words say nothing, or memory is lacking.
    fn answer(alloc: Global, case: &Case, call: &Call) -> Option<Answer>;
}

/// How many cases there are, and how many of them do not hold.
#[derive(Clone, Copy)]
struct Count {
    all: u64,
    wrong: u64,
}

impl Count {
    fn with(self, holds: bool) -> Count {
        let wrong = if holds { 0 } else { 1 };
        Count {
            all: self.all.saturating_add(1),
            wrong: self.wrong.saturating_add(wrong),
        }
    }
}

/// Plays all cases of the folder, tells those that do not hold, and answers the exit status.
pub fn play_all<P: Player, R: Runtime + AllocGlobal>(rt: &R) -> io::Result<u8> {
    let Folder { files, unread } = match folder_of(rt, FOLDER) {
        Ok(folder) => folder,
        Err(Unread::File(name)) => return tell_unreadable(rt, name.as_str()),
        Err(Unread::NoMemory) => return Ok(FAILED),
    };
    match unread {
        Some(name) => tell_unreadable(rt, name.as_str()),
        None => play_files::<P, R>(rt, files.as_slice()),
    }
}

fn tell_unreadable<R: Runtime + AllocGlobal>(rt: &R, name: &str) -> io::Result<u8> {
    println!(rt; "{name} cannot be read")?;
    Ok(UNREADABLE)
}

fn play_files<P: Player, R: Runtime + AllocGlobal>(rt: &R, files: &[File]) -> io::Result<u8> {
    let mut count = Count { all: 0, wrong: 0 };
    for (name, bytes) in files {
        let name = str::from_utf8(name.as_bytes()).unwrap_or("");
        match read_cases(rt.alloc(), bytes.as_slice()) {
            Ok(cases) => count = play_cases::<P, R>(rt, name, cases.as_slice(), count)?,
            Err(Fault::Line(line, why)) => {
                println!(rt; "{FOLDER}/{name}:{line}: {why}")?;
                return Ok(UNREADABLE);
            }
            Err(Fault::NoMemory) => return Ok(FAILED),
        }
    }
    tell_count(rt, count)
}

fn read_cases(alloc: Global, bytes: &[u8]) -> Result<Vec<Case>, Fault> {
    match str::from_utf8(bytes) {
        Ok(text) => cases_of(alloc, text),
        Err(_) => Err(Fault::Line(1, "this file is not UTF-8")),
    }
}

fn tell_count<R: Runtime + AllocGlobal>(rt: &R, count: Count) -> io::Result<u8> {
    let Count { all, wrong } = count;
    if wrong == 0 {
        println!(rt; "{all} cases hold")?;
        return Ok(0);
    }
    println!(rt; "{wrong} of {all} cases do not hold")?;
    Ok(WRONG)
}

/// Plays the cases of a file, and counts them in.
fn play_cases<P: Player, R: Runtime + AllocGlobal>(
    rt: &R,
    name: &str,
    cases: &[Case],
    count: Count,
) -> io::Result<Count> {
    let mut count = count;
    for case in cases {
        count = count.with(holds::<P, R>(rt, name, case)?);
    }
    Ok(count)
}

/// Whether each call of a case writes what is wanted; those that do not are told.
fn holds<P: Player, R: Runtime + AllocGlobal>(rt: &R, name: &str, case: &Case) -> io::Result<bool> {
    let mut holds = true;
    for call in &case.calls {
        if !is_answered::<P, R>(rt, name, case, call)? {
            holds = false;
        }
    }
    Ok(holds)
}

fn is_answered<P: Player, R: Runtime + AllocGlobal>(
    rt: &R,
    name: &str,
    case: &Case,
    call: &Call,
) -> io::Result<bool> {
    let Some(answer) = P::answer(rt.alloc(), case, call) else {
        tell_unmade(rt, name, case, call)?;
        return Ok(false);
    };
    let found = counted(rt.alloc(), call, answer)?;
    if found.status == call.wanted.status
        && found.written.as_slice() == call.wanted.written.as_slice()
    {
        return Ok(true);
    }
    tell_other(rt, name, case, call, &found)?;
    Ok(false)
}

/// What counts of an answer: all of it, or the lines with a word.
fn counted(alloc: Global, call: &Call, answer: Answer) -> Result<Answer, AllocError> {
    let Some(word) = &call.word else {
        return Ok(answer);
    };
    let Answer { status, written } = answer;
    let written = lines_with(alloc, written.as_slice(), word.as_str())?;
    Ok(Answer { status, written })
}
