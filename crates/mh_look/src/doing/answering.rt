//! What is explained of files that are read: the service is checked, or what was printed of it is taken, and told with its
//! places, causes and mends. Where the bytes come from, and where the text goes, is left to the caller.
use crate::command_line::Explain;
use crate::doing::Outcome;
use crate::source::{Failure, unknown};
use bstr::ByteSlice;
use mh_base::{Seq, both};
use mh_flow::Link;
use mh_folder::Folder;
use mh_layers::{Arrow, Way};
use mh_told::text::Text;
use mh_verify::Refusal;
use mh_why::{
    Case, Known, NamedFile, Verdict, case_of, no_case, verdict_on, verdict_text, ways_of, why,
};
use std::alloc::{AllocError, Global};

/// The files that options name, with their bytes.
#[derive(Drop)]
pub struct Read {
    /// The scenes whose files come late.
    pub late: Option<Vec<u8>>,
    /// The tags of the binary notation.
    pub tags: Option<Vec<u8>>,
    /// The script that was played.
    pub script: Option<Vec<u8>>,
}

/// An explanation, and what came of the service.
#[derive(Drop)]
pub struct Answer {
    pub text: Text,
    pub outcome: Outcome,
}

/// The lines that are explained, what came of them, and what is known of the refusal that they tell: the links of its
/// chain and the effects of its circle.
#[derive(Drop)]
struct Told {
    lines: Vec<u8>,
    outcome: Outcome,
    chain: Seq<Link>,
    cycle: Seq<Arrow>,
    case: Case,
}

/// What is explained of the files of a folder, or of what was printed of them; an error where nothing is.
pub fn answer_of(
    alloc: Global,
    asked: &Explain<'_>,
    given: &Read,
    folder: &Folder,
    output: Option<Vec<u8>>,
) -> Result<Answer, Failure> {
    let told = told_of(alloc, asked, given, folder, output)?;
    answer_on(alloc, asked, given, folder, &told)
}

/// What is explained: what was printed, or what is found.
fn told_of(
    alloc: Global,
    asked: &Explain<'_>,
    given: &Read,
    folder: &Folder,
    output: Option<Vec<u8>>,
) -> Result<Told, Failure> {
    match output {
        Some(lines) => printed(alloc, lines, asked, given, folder),
        None => checked(alloc, asked, given, folder),
    }
}

/// The explanation of what is told.
fn answer_on(
    alloc: Global,
    asked: &Explain<'_>,
    given: &Read,
    folder: &Folder,
    told: &Told,
) -> Result<Answer, Failure> {
    let text = explanation(alloc, asked, given, folder, told)?;
    if text.as_slice().is_empty() {
        return Err(unknown(alloc, asked.output.unwrap_or(asked.source.folder)));
    }
    Ok(Answer {
        text,
        outcome: told.outcome,
    })
}

/// What was printed of the service. Where that is a refusal which these files have, all of it is known.
fn printed(
    alloc: Global,
    lines: Vec<u8>,
    asked: &Explain<'_>,
    given: &Read,
    folder: &Folder,
) -> Result<Told, Failure> {
    if !lines.as_slice().starts_with(b"refused V") {
        return Ok(bare(alloc, lines, Outcome::Written));
    }
    let found = checked(alloc, asked, given, folder)?;
    Ok(of_output(alloc, lines, found))
}

/// Lines of which no more is known.
fn bare(alloc: Global, lines: Vec<u8>, outcome: Outcome) -> Told {
    Told {
        lines,
        outcome,
        chain: Seq::new(alloc),
        cycle: Seq::new(alloc),
        case: no_case(alloc),
    }
}

/// The lines of an output, with what was found, if they tell just that.
fn of_output(alloc: Global, lines: Vec<u8>, found: Told) -> Told {
    if !lines.as_slice().starts_with(found.lines.as_slice()) {
        return bare(alloc, lines, Outcome::Written);
    }
    let Told {
        chain,
        cycle,
        case,
        ..
    } = found;
    Told {
        lines,
        outcome: Outcome::Written,
        chain,
        cycle,
        case,
    }
}

/// What is found of the service: what cannot be read comes first.
fn checked(
    alloc: Global,
    asked: &Explain<'_>,
    given: &Read,
    folder: &Folder,
) -> Result<Told, Failure> {
    if let Some(name) = &folder.unread {
        let mut line = Vec::from_slice(alloc, b"read ")?;
        line.extend_from_slice(name.as_bytes())?;
        return Ok(bare(alloc, line, Outcome::Unread));
    }
    let verdict = verdict_on(
        alloc,
        given.tags.as_ref().map(|bytes| bytes.as_slice()),
        folder.files.as_slice(),
        asked.source.start.as_bytes(),
        given.late.as_ref().map(|bytes| bytes.as_slice()),
    );
    match verdict {
        Ok(verdict) => Ok(told_by(alloc, verdict)?),
        Err(_) => Err(Failure::Failed),
    }
}

/// What a verdict tells. It is taken apart before memory is asked for, since it is dear to drop.
fn told_by(alloc: Global, verdict: Verdict) -> Result<Told, AllocError> {
    let outcome = outcome_of(&verdict);
    let words = both(lines_on(alloc, &verdict), case_on(alloc, &verdict));
    let (chain, cycle) = refusal_parts(alloc, verdict);
    let (lines, case) = words?;
    Ok(Told {
        lines,
        outcome,
        chain,
        cycle,
        case,
    })
}

fn lines_on(alloc: Global, verdict: &Verdict) -> Result<Vec<u8>, AllocError> {
    let text = verdict_text(alloc, verdict)?;
    Vec::from_slice(alloc, text.as_slice())
}

/// The case of a refusal; of another verdict there is none.
fn case_on(alloc: Global, verdict: &Verdict) -> Result<Case, AllocError> {
    match verdict {
        Verdict::Refused(refusal) => case_of(alloc, refusal),
        _ => Ok(no_case(alloc)),
    }
}

fn outcome_of(verdict: &Verdict) -> Outcome {
    match verdict {
        Verdict::Accepted(_) => Outcome::Written,
        Verdict::Refused(_) => Outcome::Refused,
        Verdict::Unreadable(_) => Outcome::Unread,
    }
}

/// The links of the chain and the effects of the circle of a refusal; of another verdict there are none.
fn refusal_parts(alloc: Global, verdict: Verdict) -> (Seq<Link>, Seq<Arrow>) {
    match verdict {
        Verdict::Refused(refusal) => {
            let Refusal { chain, cycle, .. } = refusal;
            (chain, cycle)
        }
        _ => (Seq::new(alloc), Seq::new(alloc)),
    }
}

/// What is explained of the lines.
fn explanation(
    alloc: Global,
    asked: &Explain<'_>,
    given: &Read,
    folder: &Folder,
    told: &Told,
) -> Result<Text, Failure> {
    let ways = wanted_ways(alloc, asked, given, folder, told.lines.as_slice())?;
    let known = Known {
        files: folder.files.as_slice(),
        ways: match &ways {
            Some(ways) => ways.as_slice(),
            None => &[],
        },
        chain: told.chain.as_slice(),
        cycle: told.cycle.as_slice(),
        cause: told.case.cause.as_slice(),
        mend: told.case.mend.as_slice(),
        detail: told.case.detail,
        late: named_file(asked.source.late, &given.late),
        tags: named_file(asked.source.tags, &given.tags),
        script: named_file(asked.script, &given.script),
    };
    Ok(why(alloc, &known, told.lines.as_slice())?)
}

/// The dearest ways, where they are asked for, or a bound is refused.
fn wanted_ways(
    alloc: Global,
    asked: &Explain<'_>,
    given: &Read,
    folder: &Folder,
    lines: &[u8],
) -> Result<Option<Vec<Way>>, Failure> {
    if !asked.costs && !lines.lines().any(|line| line.starts_with(b"refused V8 ")) {
        return Ok(None);
    }
    Ok(ways_of(
        alloc,
        given.tags.as_ref().map(|bytes| bytes.as_slice()),
        folder.files.as_slice(),
        asked.source.start.as_bytes(),
        given.late.as_ref().map(|bytes| bytes.as_slice()),
    )?)
}

/// The file that an option names, with its bytes.
fn named_file<'a>(name: Option<&'a str>, bytes: &'a Option<Vec<u8>>) -> Option<NamedFile<'a>> {
    match (name, bytes) {
        (Some(name), Some(bytes)) => Some(NamedFile {
            name: name.as_bytes(),
            bytes: bytes.as_slice(),
        }),
        _ => None,
    }
}
