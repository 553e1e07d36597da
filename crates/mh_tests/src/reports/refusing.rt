//! Memory that is refused. Each test holds with ample memory, and with any one growth refused
//! (`bench/refusals` refuses each in turn): what is prepared is prepared once more where it was refused,
//! a play that was refused has written a beginning of its report, and a step or a post that was refused is
//! made again.
use crate::playing::{DAY, play, sources};
use mh_base::{GroupName, Octets};
use mh_cases::add_named;
use mh_display::changed_rows;
use mh_engine::{Engine, Stepped};
use mh_model::picture::ROWS;
use mh_model::{File, Input, Key, Picture};
use mh_report::{ListSink, PlayError, Status};
use mh_service::Service;
use mh_told::row::put_row;
use mh_told::text::Text;
use mh_told::told::put_total;
use mh_verify::verify;
use std::alloc::Global;

/// A play: its script, whose commands end in `|`, the files of its service, and its report. The last one has a list of
/// acts each of which wants memory.
pub struct Play {
    pub script: &'static str,
    pub files: &'static str,
    report: &'static str,
}

pub static PLAYS: [Play; 4] = [
    Play {
        script: "run|tick 60000|run|show|",
        files: r#"a {:Application ("~/a" 0) :OnStartUp ( :TransitionTo (("~/t" 0)) ) }
@t {:Scene ("~/t" 0) :OnStartUp ( :SetTimer (0 1 500) :SetTimer (0 2 500) :SetTimer (0 3 100) ) :Items (
{:IntegerVar 5 :OrigValue 0 } {:Rectangle 10 :OrigBoxSize 24 32 :OrigPosition 12 16 :OrigLineWidth 0
:OrigRefFillColour '=FF=00=00=00' } {:Link 11 :EventSource 0 :EventType TimerFired :EventData 1 :LinkEffect (
:Multiply (5 10) :Add (5 1) :SetPosition (10 :IndirectRef 5 16) ) } {:Link 12 :EventSource 0 :EventType
TimerFired :EventData 2 :LinkEffect ( :Multiply (5 10) :Add (5 2) :SetPosition (10 :IndirectRef 5 16) ) }
{:Link 13 :EventSource 0 :EventType TimerFired :EventData 3 :LinkEffect ( :Multiply (5 10) :Add (5 3)
:SetTimer (0 3 100) :SetPosition (10 :IndirectRef 5 16) ) } ) }"#,
        report: r#"did 20 idle
did 14 idle
frame 1
row 01: 26-27 000000/ff0000 ""
row 02: 26-27 000000/ff0000 ""
total 34
"#,
    },
    Play {
        script: "run|key 1|key 2|key 3|run|show|",
        files: r#"application @s {:Scene ("~/s" 0) :Items ( {:EntryField 10 :OrigBoxSize 24 16 :MaxLength 2 }
{:Link 11 :EventSource 10 :EventType EntryFieldFull :LinkEffect ( :SetInteractionStatus (10 false) ) } {:Link
12 :EventSource 0 :EventType IsRunning :LinkEffect ( :SetInteractionStatus (10 true) ) } ) }"#,
        report: r#"did 15 idle
did 8 idle
frame 1
row 00: 0-1 ffffff/000000 "12"
total 23
"#,
    },
    Play {
        script: "run|file x 4869|run|show|",
        files: "waiting",
        report: r#"did 5 idle
did 2 idle
frame 1
row 00: 0-1 ffffff/000000 "Hi"
total 7
"#,
    },
    Play {
        script: "run|show|",
        files: r#"a {:Application ("~/a" 0) :Items ( {:OStringVar 1 :OrigValue '' } {:Text 2 :OrigBoxSize 480 16 }
{:Link 3 :EventSource 0 :EventType IsRunning :LinkEffect ( :Append (1 'one ') :Append (1 'by ') :Append (1 'one ')
:Append (1 'they ') :Append (1 'come, ') :Append (1 'and ') :Append (1 'none ') :Append (1 'is ') :Append (1 'lost')
:SetData (2 :IndirectRef 1) ) } ) }"#,
        report: r#"did 20 idle
frame 1
row 00: 0-2 ffffff/000000 "one" 4-5 ffffff/000000 "by" 7-9 ffffff/000000 "one" 11-14 ffffff/000000 "they" 16-20 ffffff/000000 "come," 22-24 ffffff/000000 "and" 26-29 ffffff/000000 "none" 31-32 ffffff/000000 "is" 34-37 ffffff/000000 "lost"
total 20
"#,
    },
];

/// How a play ended that was to write a report.
#[derive(Clone, Copy)]
enum Ending {
    /// All of it is written.
    Whole,
    /// Memory was refused, and a beginning of it is written.
    Cut,
    Wrong,
}

/// How the play ends, into a sink that has room for the report. None where it could not be prepared.
fn end_of(alloc: Global, wanted: &Play) -> Option<Ending> {
    let room = Vec::with_capacity(alloc, wanted.report.len()).ok();
    let (files, bytes) = sources(alloc, wanted.files).zip(room)?;
    let mut sink = ListSink { bytes, failures: 0 };
    let how = ("a", wanted.script, false, DAY);
    let ended = play(alloc, files.as_slice(), how, &mut sink)?;
    Some(end_as(ended, sink.bytes.as_slice(), wanted.report.as_bytes()))
}

/// How a play ended that was to write a report, and wrote this.
fn end_as(ended: Result<Status, PlayError>, written: &[u8], report: &[u8]) -> Ending {
    match ended {
        Ok(Status::Good) if written == report => Ending::Whole,
        Err(PlayError::NoMemory) if report.starts_with(written) => Ending::Cut,
        _ => Ending::Wrong,
    }
}

/// Whether the report is written; where memory was refused, a beginning of it, and all of it by the next
/// play.
fn is_written(alloc: Global, wanted: &Play) -> bool {
    match end_of(alloc, wanted) {
        Some(Ending::Whole) => true,
        Some(Ending::Wrong) => false,
        _ => matches!(end_of(alloc, wanted), Some(Ending::Whole)),
    }
}

#[test]
fn writes_a_beginning(rt: HostRuntime) {
    for wanted in &PLAYS {
        assert!(rt; is_written(rt.alloc(), wanted), "{}", wanted.script);
    }
}

/// What a command of a script posts.
fn input(alloc: Global, command: &str) -> Option<Input> {
    match command {
        "tick 60000" => Some(Input::Tick(60_000)),
        "key 1" => Some(Input::Key(Key::Digit1)),
        "key 2" => Some(Input::Key(Key::Digit2)),
        "key 3" => Some(Input::Key(Key::Digit3)),
        "file x 4869" => Some(Input::Arrive(file(alloc, b"x", b"Hi")?)),
        _ => None,
    }
}

/// A content file.
pub fn file(alloc: Global, path: &[u8], content: &[u8]) -> Option<File> {
    let name = GroupName::of_path(alloc, path).ok();
    let (name, content) = name.zip(Octets::from_slice(alloc, content).ok())?;
    Some(File { name, content })
}

/// Posts an input; one that is refused comes back, and is posted again.
fn post(engine: &mut Engine, input: Input) -> Option<()> {
    match engine.post(input) {
        Ok(()) => Some(()),
        Err(refused) => engine.post(refused.input).ok(),
    }
}

/// Makes a step, once more where memory was refused.
pub fn step(engine: &mut Engine) -> Option<Stepped> {
    match engine.step() {
        Ok(stepped) => Some(stepped),
        Err(_) => engine.step().ok(),
    }
}

/// Makes the steps that there are to make.
fn run(engine: &mut Engine) -> Option<()> {
    for _ in 0..100 {
        if matches!(step(engine)?, Stepped::Idle | Stepped::Ended) {
            return Some(());
        }
    }
    None
}

/// Does what a command of a script says.
pub fn obey(alloc: Global, engine: &mut Engine, command: &str) -> Option<()> {
    match command {
        "run" => run(engine),
        "show" | "" => Some(()),
        _ => match input(alloc, command) {
            Some(posted) => post(engine, posted),
            None => post(engine, input(alloc, command)?),
        },
    }
}

fn obey_all(alloc: Global, engine: &mut Engine, script: &str) -> Option<()> {
    for command in script.split('|') {
        obey(alloc, engine, command)?;
    }
    Some(())
}

/// Puts the rows in which a picture differs from another.
fn put_changes(text: &mut Text, before: &Picture, after: &Picture) -> Option<()> {
    let changed = changed_rows(before, after);
    for row in 0..ROWS {
        if changed[row] {
            put_row(text, after, row).ok()?;
        }
    }
    Some(())
}

/// The rows that are not black, and how many steps were made. None where there were faults.
pub fn told(alloc: Global, engine: &mut Engine) -> Option<Text> {
    let (taken, is_good) = (engine.taken(), engine.faults().is_empty());
    if is_good {
        shown(alloc, engine.picture(), taken)
    } else {
        None
    }
}

/// What is told of the engine, asked for once more where memory was refused.
pub fn told_again(alloc: Global, engine: &mut Engine) -> Option<Text> {
    match told(alloc, engine) {
        Some(found) => Some(found),
        None => told(alloc, engine),
    }
}

/// The rows of a picture that are not black, and how many steps were made.
pub fn shown(alloc: Global, picture: &Picture, taken: u64) -> Option<Text> {
    let black = Picture::black(alloc).ok()?;
    let mut text = Text::new(alloc);
    let put = put_changes(&mut text, &black, picture);
    put.and(put_total(&mut text, taken).ok()).and(Some(text))
}

pub fn is_told(told: Option<Text>, wanted: &str) -> bool {
    match told {
        Some(told) => told.as_slice() == wanted.as_bytes(),
        None => false,
    }
}

/// Whether the engine shows the last frame of the report, after so many steps, without faults.
pub fn is_reported(alloc: Global, engine: &mut Engine, wanted: &Play) -> bool {
    let found = told_again(alloc, engine);
    match wanted.report.split_once("frame 1\n") {
        Some((_, frame)) => is_told(found, frame),
        None => false,
    }
}

/// What is played. Its owner below is generic, since a function that owns an engine by name is dear to
/// prove.
trait Played {
    /// Whether the script leads to the last frame of the report, by so many steps, without faults.
    fn holds(&mut self, alloc: Global, wanted: &Play) -> bool;
}

impl Played for Engine {
    fn holds(&mut self, alloc: Global, wanted: &Play) -> bool {
        obey_all(alloc, self, wanted.script).is_some() && is_reported(alloc, self, wanted)
    }
}

/// None where there is nothing to play.
fn of_played<P: Played + Drop>(alloc: Global, played: Option<P>, wanted: &Play) -> Option<bool> {
    let mut played = played;
    Some(played.as_mut()?.holds(alloc, wanted))
}

pub fn service(alloc: Global, files: &str) -> Option<Service> {
    let mut groups = Vec::new(alloc);
    let added = add_named(alloc, &mut groups, files);
    let start = GroupName::of_path(alloc, b"a").ok();
    let (groups, start) = added.and(Some(groups)).zip(start)?;
    Service::of_files(alloc, groups, start).ok()
}

/// An engine of the service of these files, which the verifier accepts.
pub fn engine(alloc: Global, files: &str) -> Option<Engine> {
    let accepted = verify(alloc, service(alloc, files)?, &[]).ok()?;
    Engine::start(alloc, accepted, DAY).ok()
}

/// Whether an engine of the service ends as the report does. None where it could not be prepared.
fn is_replayed(alloc: Global, wanted: &Play) -> Option<bool> {
    of_played(alloc, engine(alloc, wanted.files), wanted)
}

#[test]
fn makes_a_refused_call_again(rt: HostRuntime) {
    for wanted in &PLAYS {
        let held = match is_replayed(rt.alloc(), wanted) {
            Some(held) => Some(held),
            None => is_replayed(rt.alloc(), wanted),
        };
        assert!(rt; held == Some(true), "{}", wanted.script);
    }
}
