//! What `redtry` writes, but for plays at a terminal.
use crate::command::{Aim, Command};
use crate::plays::copied;
use mh_base::{GroupName, ObjRef};
use mh_case_files::{Answer, Material};
use mh_model::picture::COLUMNS;
use mh_told::text::Text;
use mh_told::unplayable::Unplayable;
use mh_try::{
    Chosen, Form, Goal, Part, Telling, Unwatched, Within, cover_of, refusal_of, script_to,
    state_of, trace_of,
};
use mh_verdict::complaint_text;
use std::alloc::Global;

/// How many plays a search tries at most.
const PLAYS: u32 = 20_000;

/// The exit status where the verifier refuses a service, and where no script is found.
const NOT_SO: u8 = 1;

/// The exit status where a service or a script cannot be read.
const UNREADABLE: u8 = 2;

/// What a call of `redtry` writes, and its exit status.
pub fn answer(alloc: Global, material: &Material, command: &Command<'_>) -> Option<Answer> {
    let chosen = chosen(alloc, material, command)?;
    match command.name {
        "trace" => traced(alloc, material, &chosen, command),
        "state" => stated(alloc, material, &chosen, command),
        "cover" => covered(alloc, material, &chosen, command.tap),
        "find" => found(alloc, material, &chosen, command),
        _ => None,
    }
}

fn chosen(alloc: Global, material: &Material, command: &Command<'_>) -> Option<Chosen> {
    let late = copied(alloc, &material.late)?;
    let tags = copied(alloc, &material.tags)?;
    let start = Vec::from_slice(alloc, command.start.as_bytes()).ok()?;
    Some(Chosen {
        start,
        late,
        tags,
        mjd: command.mjd,
    })
}

/// An answer of a text.
fn of_text(alloc: Global, text: &Text, status: u8) -> Option<Answer> {
    let written = Vec::from_slice(alloc, text.as_slice()).ok()?;
    Some(Answer { status, written })
}

/// An answer of a text, or of why there is none.
fn of_told(alloc: Global, told: Result<Text, Unplayable>) -> Option<Answer> {
    match told {
        Ok(text) => of_text(alloc, &text, 0),
        Err(why) => of_text(alloc, &complaint_text(alloc, &why).ok()?, UNREADABLE),
    }
}

fn traced(
    alloc: Global,
    material: &Material,
    chosen: &Chosen,
    command: &Command<'_>,
) -> Option<Answer> {
    if command.strict {
        if let Some(refusal) = refusal(alloc, material, chosen)? {
            return of_text(alloc, &refusal, NOT_SO);
        }
    }
    let only = object_of(alloc, command)?;
    let telling = telling_of(command);
    of_told(
        alloc,
        trace(alloc, material, chosen, &telling, only.as_ref()),
    )
}

fn stated(
    alloc: Global,
    material: &Material,
    chosen: &Chosen,
    command: &Command<'_>,
) -> Option<Answer> {
    let part = part_of(alloc, command)?;
    of_told(
        alloc,
        state_of(
            alloc,
            material.files.as_slice(),
            script_of(material),
            chosen,
            u64::from(command.at),
            &part,
        ),
    )
}

/// What is told of a state.
fn part_of(alloc: Global, command: &Command<'_>) -> Option<Part> {
    if let Some((column, row)) = command.cell {
        let row = usize::try_from(row).ok()?;
        let cell = row
            .checked_mul(COLUMNS)?
            .checked_add(usize::try_from(column).ok()?)?;
        return Some(Part::Cell(cell));
    }
    match object_of(alloc, command)? {
        Some(at) => Some(Part::Object(at)),
        None => Some(Part::All),
    }
}

/// The lines on a refusal, if there is one; none at all where the service cannot be read.
fn refusal(alloc: Global, material: &Material, chosen: &Chosen) -> Option<Option<Text>> {
    refusal_of(alloc, material.files.as_slice(), chosen).ok()
}

/// The object that is told alone, if one is.
fn object_of(alloc: Global, command: &Command<'_>) -> Option<Option<ObjRef>> {
    let Some((group, number)) = command.only else {
        return Some(None);
    };
    let group = GroupName::of_path(alloc, group.as_bytes()).ok()?;
    Some(Some(ObjRef { group, number }))
}

/// Which steps are told, and how.
fn telling_of(command: &Command<'_>) -> Telling {
    let form = if command.json { Form::Json } else { Form::Text };
    Telling {
        form,
        from: u64::from(command.from),
        until: u64::from(command.until),
    }
}

fn trace(
    alloc: Global,
    material: &Material,
    chosen: &Chosen,
    telling: &Telling,
    only: Option<&ObjRef>,
) -> Result<Text, Unplayable> {
    trace_of(
        alloc,
        material.files.as_slice(),
        script_of(material),
        chosen,
        telling,
        only,
    )
}

fn script_of(material: &Material) -> &[u8] {
    match &material.script {
        Some(script) => script.as_slice(),
        None => b"",
    }
}

fn covered(alloc: Global, material: &Material, chosen: &Chosen, tap: bool) -> Option<Answer> {
    let mut scripts = Vec::new(alloc);
    scripts
        .push(Vec::from_slice(alloc, script_of(material)).ok()?)
        .ok()?;
    let files = material.files.as_slice();
    of_told(
        alloc,
        cover_of(alloc, files, scripts.as_slice(), chosen, tap),
    )
}

fn found(
    alloc: Global,
    material: &Material,
    chosen: &Chosen,
    command: &Command<'_>,
) -> Option<Answer> {
    let within = Within {
        inputs: command.keys,
        steps: command.steps,
        plays: PLAYS,
    };
    let goal = goal_of(alloc, command.aim)?;
    let mut nobody = Unwatched;
    let files = material.files.as_slice();
    match script_to(alloc, files, chosen, &goal, within, &mut nobody) {
        Ok(Some(script)) => of_text(alloc, &script, 0),
        Ok(None) => of_text(alloc, &Text::new(alloc), NOT_SO),
        Err(why) => of_text(alloc, &complaint_text(alloc, &why).ok()?, UNREADABLE),
    }
}

fn goal_of(alloc: Global, aim: Aim<'_>) -> Option<Goal> {
    match aim {
        Aim::Fault => Some(Goal::Fault),
        Aim::More => Some(Goal::More),
        Aim::Scene(path) => Some(Goal::Scene(GroupName::of_path(alloc, path.as_bytes()).ok()?)),
        Aim::Shown(text) => Some(Goal::Shown(scalars(alloc, text)?)),
    }
}

fn scalars(alloc: Global, text: &str) -> Option<Vec<u32>> {
    let mut scalars = Vec::new(alloc);
    for character in text.chars() {
        scalars.push(u32::from(character)).ok()?;
    }
    Some(scalars)
}
