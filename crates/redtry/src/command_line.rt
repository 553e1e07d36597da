//! The words of the command line: what the program is asked to do.
//!
//! What the words mean, which are refused and why are `clap`'s rules over `program`.
use crate::parts::{object_in, part_in};
use crate::program::{MOST_KEYS, MOST_READS, MOST_STEPS, MOST_TOLD, program};
use clap::ArgMatches;
use mh_base::{GroupName, NameError, ObjRef};
use mh_command::values::{day_of, file_of, is_set, number_of, text_of};
use mh_command::{NoTask, Source, matches_of, source_of};
use mh_try::{Form, Part, Telling};
use std::alloc::{AllocError, Global};

/// What is asked for, and of which service.
#[derive(Drop)]
pub struct Task<'a> {
    pub source: Source<'a>,
    /// The modified Julian day on which the play begins.
    pub mjd: u32,
    pub asked: Asked<'a>,
}

/// What is asked for.
#[derive(Drop)]
pub enum Asked<'a> {
    /// The steps of a script, a line each.
    Trace {
        /// The file with the script, or `-` for standard input.
        script: &'a str,
        /// Whether a service that the verifier refuses is not played.
        strict: bool,
        /// The object whose lines alone are told.
        only: Option<ObjRef>,
        /// Which steps are told, and how.
        telling: Telling,
    },
    /// The state behind some steps of a script.
    State {
        script: &'a str,
        /// Behind how many steps.
        at: u64,
        /// What is told of it.
        part: Part,
    },
    /// What scripts do of a service.
    Cover {
        scripts: Vec<&'a str>,
        /// Whether it is printed for test harnesses.
        tap: bool,
    },
    /// A script that leads somewhere.
    Find(FindOptions<'a>),
    /// A play at a terminal.
    Live(LiveOptions<'a>),
}

/// Which script is looked for.
#[derive(Drop)]
pub struct FindOptions<'a> {
    pub aim: Aim<'a>,
    /// How many inputs it has at most, and how many steps are made behind each.
    pub keys: u32,
    pub steps: u32,
}

/// Where a script is to lead.
#[derive(Drop)]
pub enum Aim<'a> {
    /// To a fault.
    Fault,
    /// To more steps than are made.
    More,
    /// To this scene.
    Scene(GroupName),
    /// To a picture that shows this text.
    Shown(&'a str),
}

/// How a service is played at a terminal.
#[derive(Drop)]
pub struct LiveOptions<'a> {
    /// The file in which the script is kept that plays the same.
    pub record: Option<&'a str>,
    /// The folder with the content files that come as they are asked for.
    pub files: Option<&'a str>,
    /// The file that tells the size of the window.
    pub window: Option<&'a str>,
    /// How often the terminal is read at most.
    pub reads: u32,
}

/// Why nothing is tried.
#[derive(Drop)]
pub enum LineError {
    /// The words ask for no task.
    NoTask(NoTask),
    /// What `--only` or `--object` names is no object.
    NoObject,
    /// What `--cell` names is no cell.
    NoCell,
    /// An object and a cell are asked for.
    ManyParts,
    /// `--format` names no form.
    NoForm,
    /// What `--to` names is no path.
    NoScene,
    /// `find` is to look for several things.
    ManyAims,
}

impl From<NoTask> for LineError {
    fn from(why: NoTask) -> LineError {
        LineError::NoTask(why)
    }
}

impl From<AllocError> for LineError {
    fn from(_refused: AllocError) -> LineError {
        LineError::NoTask(NoTask::NoMemory)
    }
}

/// What the words ask for. The first word is the program's own name.
pub fn line_of<'a>(alloc: Global, words: &'a [String]) -> Result<Task<'a>, LineError> {
    let matches = matches_of(program(alloc)?, words)?;
    task_of(alloc, &matches)
}

/// What is asked for. `program` requires a subcommand.
fn task_of<'a>(alloc: Global, matches: &ArgMatches<'a>) -> Result<Task<'a>, LineError> {
    match matches.subcommand() {
        Some((name, given)) => task_under(alloc, name, given),
        None => Err(LineError::NoTask(NoTask::NoMemory)),
    }
}

/// What the subcommand of this name asks for, and of which service.
fn task_under<'a>(
    alloc: Global,
    name: &str,
    given: &ArgMatches<'a>,
) -> Result<Task<'a>, LineError> {
    let asked = asked_under(alloc, name, given)?;
    Ok(Task {
        source: source_of(given),
        mjd: day_of(given),
        asked,
    })
}

/// What the subcommand of this name asks for.
fn asked_under<'a>(
    alloc: Global,
    name: &str,
    given: &ArgMatches<'a>,
) -> Result<Asked<'a>, LineError> {
    match name {
        "trace" => Ok(Asked::Trace {
            script: text_of(given, "script"),
            strict: is_set(given, "strict"),
            only: object_in(alloc, given, "only")?,
            telling: telling_in(given)?,
        }),
        "state" => Ok(Asked::State {
            script: text_of(given, "script"),
            at: number_of(given, "at", MOST_TOLD),
            part: part_in(alloc, given)?,
        }),
        "cover" => Ok(Asked::Cover {
            scripts: texts_of(alloc, given, "SCRIPT")?,
            tap: is_set(given, "tap"),
        }),
        "find" => Ok(Asked::Find(find_options(alloc, given)?)),
        _ => Ok(Asked::Live(live_options(given))),
    }
}

fn find_options<'a>(alloc: Global, given: &ArgMatches<'a>) -> Result<FindOptions<'a>, LineError> {
    let aim = aim_of(alloc, given)?;
    let steps = match given.get_str("over") {
        Some(_) => "over",
        None => "steps",
    };
    Ok(FindOptions {
        aim,
        keys: number_of(given, "keys", MOST_KEYS) as u32,
        steps: number_of(given, steps, MOST_STEPS) as u32,
    })
}

/// What is looked for: one thing at most is asked for, and a fault where none is.
fn aim_of<'a>(alloc: Global, given: &ArgMatches<'a>) -> Result<Aim<'a>, LineError> {
    let (to, shows) = (given.get_str("to"), given.get_str("shows"));
    let is_more = is_set(given, "endless") || given.get_str("over").is_some();
    match (is_more, to, shows) {
        (false, None, None) => Ok(Aim::Fault),
        (true, None, None) => Ok(Aim::More),
        (false, Some(scene), None) => Ok(Aim::Scene(scene_of(alloc, scene)?)),
        (false, None, Some(text)) => Ok(Aim::Shown(text)),
        _ => Err(LineError::ManyAims),
    }
}

fn scene_of(alloc: Global, path: &str) -> Result<GroupName, LineError> {
    match GroupName::of_path(alloc, path.as_bytes()) {
        Ok(scene) => Ok(scene),
        Err(NameError::BadName) => Err(LineError::NoScene),
        Err(NameError::NoMemory) => Err(LineError::NoTask(NoTask::NoMemory)),
    }
}

fn live_options<'a>(given: &ArgMatches<'a>) -> LiveOptions<'a> {
    LiveOptions {
        record: file_of(given, "record"),
        files: file_of(given, "files"),
        window: file_of(given, "window"),
        reads: number_of(given, "reads", MOST_READS) as u32,
    }
}

/// Which steps are told, and how.
fn telling_in(given: &ArgMatches<'_>) -> Result<Telling, LineError> {
    Ok(Telling {
        form: form_of(text_of(given, "format"))?,
        from: number_of(given, "from", MOST_TOLD),
        until: number_of(given, "until", MOST_TOLD),
    })
}

fn form_of(name: &str) -> Result<Form, LineError> {
    match name {
        "text" => Ok(Form::Text),
        "json" => Ok(Form::Json),
        _ => Err(LineError::NoForm),
    }
}

/// The values of an argument that may have several.
fn texts_of<'a>(
    alloc: Global,
    given: &ArgMatches<'a>,
    name: &str,
) -> Result<Vec<&'a str>, AllocError> {
    let mut texts = Vec::new(alloc);
    if let Some(values) = given.get_strs(name) {
        for value in values {
            texts.push(*value)?;
        }
    }
    Ok(texts)
}
