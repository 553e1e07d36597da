//! Plays at a terminal: what its bytes ask for, the script that is recorded, and that a picture that is shown is not drawn again.
use crate::cases::all_hold;
use crate::reports::refusing::engine;
use mh_cases::{Question, bytes, said};
use mh_live::{Ask, Live, asks_of};
use mh_script::key_name;
use mh_told::text::Text;
use std::alloc::Global;

/// What bytes ask for, a word each.
struct BytesAsked;

impl Question for BytesAsked {
    fn answer(alloc: Global, _: &str, bytes: &[u8]) -> Option<Vec<u8>> {
        let mut words = Vec::new(alloc);
        for ask in &asks_of(alloc, bytes).ok()? {
            words.extend_from_slice(word(*ask)).ok()?;
            words.push(b' ').ok()?;
        }
        Some(words)
    }
}

fn word(ask: Ask) -> &'static [u8] {
    match ask {
        Ask::Key(key) => key_name(key),
        Ask::Stream => b"stream",
        Ask::Engine => b"engine",
        Ask::Scene => b"scene",
        Ask::File => b"file",
        Ask::Back => b"back",
        Ask::Forth => b"forth",
        Ask::Redraw => b"redraw",
        Ask::Quit => b"quit",
    }
}

static ASKS: &str = r#"
rgybt => red green yellow blue text ;;
0905 => 0 9 0 5 ;;
\0d\ => select ;;
\0a\ => select ;;
\1b\ => cancel ;;
\1b\[A\1b\[B\1b\[C\1b\[D => up down right left ;;
\1b\OA\1b\OD => up left ;;
\1b\r => cancel red ;;
\1b 1b\[A => cancel up ;;
seq => stream engine quit ;;
lf<> => scene file back forth ;;
\0c\ => redraw ;;
xR\00 ff\ => "#;

#[test]
fn bytes_ask_for_keys(rt: HostRuntime) {
    all_hold::<BytesAsked>(&rt, rt.alloc(), ASKS);
}

/// The script that is recorded of bytes of a terminal, on the service of files, each read of them behind so many milliseconds.
struct PlayRecorded;

impl Question for PlayRecorded {
    fn answer(alloc: Global, asked: &str, _: &[u8]) -> Option<Vec<u8>> {
        let (front, files) = asked.split_once('@')?;
        let engine = engine(alloc, files)?;
        recorded(alloc, Live::new(alloc, engine), front)
    }
}

/// What is recorded of a play with these reads.
fn recorded(alloc: Global, live: Live, reads: &str) -> Option<Vec<u8>> {
    let mut live = live;
    let played = play(alloc, &mut live, reads);
    let script = said(alloc, live.script());
    drop(live);
    played.and(script)
}

/// Each read behind so many milliseconds; and what is shown is drawn once.
fn play(alloc: Global, live: &mut Live, reads: &str) -> Option<()> {
    for read in reads.trim_end().split(' ') {
        let (moment, pressed) = read.split_once(':')?;
        live.pass(moment.parse::<u64>().ok()?).ok()?;
        take(alloc, live, pressed)?;
    }
    is_drawn_once(alloc, live)
}

fn take(alloc: Global, live: &mut Live, pressed: &str) -> Option<()> {
    for ask in &asks_of(alloc, bytes(alloc, pressed)?.as_slice()).ok()? {
        live.take(*ask).ok()?;
    }
    Some(())
}

/// Draws twice: at first something is drawn, and then nothing.
fn is_drawn_once(alloc: Global, live: &mut Live) -> Option<()> {
    let (mut first, mut second) = (Text::new(alloc), Text::new(alloc));
    live.draw(&mut first).ok()?;
    live.draw(&mut second).ok()?;
    if first.as_slice().is_empty() || !second.as_slice().is_empty() {
        return None;
    }
    Some(())
}

static RECORDS: &str = r#"
0:r 150:g
@a {:Application ("~/a" 0) :OnStartUp ( :TransitionTo (("~/s" 0)) ) }
@s {:Scene ("~/s" 0) :InputEventReg 3 :Items ( {:Text 1 :OrigBoxSize 240 16 } {:Link 2 :EventSource 0 :EventType UserInput
:EventData 100 :LinkEffect ( :SetData (1 'a') ) } ) }
=> key red|run|show|tick 150|run|key green|run|show|;;
70000:se
@a {:Application ("~/a" 0) :OnStartUp ( :TransitionTo (("~/s" 0)) ) }
@s {:Scene ("~/s" 0) :Items ( {:Stream 4 } {:Link 2 :EventSource 4 :EventType StreamEvent :EventData 5 :LinkEffect (
:Quit (("~/a" 0)) ) } {:Link 3 :EventSource 0 :EventType EngineEvent :EventData 9 :LinkEffect ( :Quit (("~/a" 0)) ) } ) }
=> tick 60000|run|stream 5|run|show|"#;

#[test]
fn what_is_pressed_is_recorded(rt: HostRuntime) {
    all_hold::<PlayRecorded>(&rt, rt.alloc(), RECORDS);
}
