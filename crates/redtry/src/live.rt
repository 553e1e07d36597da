//! A play at a terminal: its files are read, and it is played until it is left.
use crate::arriving::Arriving;
use crate::command_line::{LiveOptions, Task};
use crate::failure::Failure;
use crate::following::{Followed, Given, given_of};
use crate::keeping::Kept;
use crate::session::Session;
use crate::terminal::play_at;
use crate::window::Window;
use mh_exit::Exit;
use mh_live::Live;
use mh_try::engine_of;
use std::rt::Runtime;

/// Plays a service at the terminal.
pub fn play_live<R: Runtime + AllocGlobal>(
    rt: &R,
    task: &Task<'_>,
    options: &LiveOptions<'_>,
) -> Result<Exit, Failure> {
    let given = given_of(rt, &task.source, task.mjd)?;
    begin_session(rt, given, task, options)
}

/// The same of files that were read.
fn begin_session<R: Runtime + AllocGlobal>(
    rt: &R,
    given: Given,
    task: &Task<'_>,
    options: &LiveOptions<'_>,
) -> Result<Exit, Failure> {
    let mut session = Session::new(
        Followed::new(rt.alloc(), &task.source, task.mjd, given),
        Kept::new(rt.alloc(), options.record),
        Window::new(rt.alloc(), options.window),
        Arriving::new(options.files),
    );
    play_session(rt, &mut session, options.reads)
}

fn play_session<R: Runtime + AllocGlobal>(
    rt: &R,
    session: &mut Session<'_>,
    reads: u32,
) -> Result<Exit, Failure> {
    let given = session.given();
    let engine = engine_of(rt.alloc(), given.files.as_slice(), &given.chosen)?;
    play_engine(rt, Live::new(rt.alloc(), engine), session, reads)
}

/// What is played at the terminal. A function that is generic in it owns a play at the price of one word: with the play
/// itself, every part of its machine stands in the proof.
trait Playable {
    /// Plays it until it is left.
    fn play<R: Runtime + AllocGlobal>(
        &mut self,
        rt: &R,
        session: &mut Session<'_>,
        reads: u32,
    ) -> Result<Exit, Failure>;
}

impl Playable for Live {
    fn play<R: Runtime + AllocGlobal>(
        &mut self,
        rt: &R,
        session: &mut Session<'_>,
        reads: u32,
    ) -> Result<Exit, Failure> {
        play_at(rt, self, session, reads)
    }
}

/// Plays what it owns, so that no other function has to.
fn play_engine<R: Runtime + AllocGlobal, P: Playable + Drop>(
    rt: &R,
    play: P,
    session: &mut Session<'_>,
    reads: u32,
) -> Result<Exit, Failure> {
    let mut play = play;
    play.play(rt, session, reads)
}
