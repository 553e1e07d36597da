//! `Session`: what a play at a terminal does between two reads.
use crate::arriving::Arriving;
use crate::clock::Clock;
use crate::failure::Failure;
use crate::following::{Followed, Given, Look};
use crate::keeping::Kept;
use crate::notices::{back_text, changed_text, unread_text, unreadable_text};
use crate::terminal::write;
use crate::window::Window;
use mh_live::{Ask, Live, asks_of};
use mh_told::text::Text;
use mh_told::unplayable::Unplayable;
use mh_try::{engine_of, fault_places};
use std::rt::Runtime;

/// Whether the play goes on.
#[derive(Clone, Copy, PartialEq, Eq)]
pub enum Next {
    Read,
    End,
}

/// What stands beside a play at a terminal.
#[derive(Drop)]
pub struct Session<'a> {
    followed: Followed<'a>,
    kept: Kept<'a>,
    window: Window<'a>,
    arriving: Arriving<'a>,
    clock: Clock,
    /// Of how many faults the places are told; none where that is to be found out.
    placed: Option<usize>,
}

impl<'a> Session<'a> {
    pub fn new(
        followed: Followed<'a>,
        kept: Kept<'a>,
        window: Window<'a>,
        arriving: Arriving<'a>,
    ) -> Session<'a> {
        Session {
            followed,
            kept,
            window,
            arriving,
            clock: Clock::new(),
            placed: None,
        }
    }

    /// The files that are played.
    pub fn given(&self) -> &Given {
        self.followed.given()
    }

    /// Keeps the record, finds the places of new faults, and draws what has changed.
    pub fn show<R: Runtime + AllocGlobal>(
        &mut self,
        rt: &R,
        live: &mut Live,
    ) -> Result<(), Failure> {
        self.kept.keep(rt, live.script())?;
        self.place_faults(rt, live)?;
        let mut text = Text::new(rt.alloc());
        self.window.draw(rt, live, &mut text)?;
        write(rt, &text)
    }

    /// Does what a read of the terminal and the clock ask for.
    pub fn turn<R: Runtime + AllocGlobal>(
        &mut self,
        rt: &R,
        live: &mut Live,
        bytes: &[u8],
        now: u64,
    ) -> Result<Next, Failure> {
        if bytes.is_empty() && self.clock.is_end(now) {
            return Ok(Next::End);
        }
        let is_changed = self.window.look(rt, live)?;
        let now = self.clock.read(now, is_changed);
        if bytes.is_empty() {
            self.rest(rt, live, now)?;
            return Ok(Next::Read);
        }
        self.clock.press(now);
        self.take(rt, live, bytes, now)
    }

    /// No key was pressed: time passes, and once a second the files are looked at.
    fn rest<R: Runtime + AllocGlobal>(
        &mut self,
        rt: &R,
        live: &mut Live,
        now: u64,
    ) -> Result<(), Failure> {
        if live.is_back() {
            live.skip(now);
        } else if live.is_time(now)? {
            live.pass(now)?;
        }
        if self.clock.is_quiet(now) {
            self.clock.press(now);
            self.follow(rt, live)?;
        }
        Ok(())
    }

    /// Does what these bytes ask for.
    fn take<R: Runtime + AllocGlobal>(
        &mut self,
        rt: &R,
        live: &mut Live,
        bytes: &[u8],
        now: u64,
    ) -> Result<Next, Failure> {
        for ask in &asks_of(rt.alloc(), bytes)? {
            live.notify(Text::new(rt.alloc()));
            match ask {
                Ask::Quit => return Ok(Next::End),
                Ask::Back => self.go_back(rt, live)?,
                Ask::Forth => self.go_forth(rt, live)?,
                Ask::Redraw => self.window.forget(live),
                Ask::File => self.bring(rt, live, now)?,
                ask => {
                    pass(live, now)?;
                    live.take(*ask)?;
                }
            }
        }
        Ok(Next::Read)
    }

    fn bring<R: Runtime + AllocGlobal>(
        &mut self,
        rt: &R,
        live: &mut Live,
        now: u64,
    ) -> Result<(), Failure> {
        match self.arriving.next(rt, live.files())? {
            Some(file) => {
                pass(live, now)?;
                live.bring(file)?;
                Ok(())
            }
            None => {
                live.notify(self.arriving.none_text(rt.alloc())?);
                Ok(())
            }
        }
    }

    /// The play up to the last input, from the start.
    fn go_back<R: Runtime + AllocGlobal>(
        &mut self,
        rt: &R,
        live: &mut Live,
    ) -> Result<(), Failure> {
        let place = live.place_back();
        if let Err(why) = self.restart(rt, live, place) {
            return Err(Failure::from(why));
        }
        tell_back(rt, live)
    }

    fn go_forth<R: Runtime + AllocGlobal>(
        &mut self,
        rt: &R,
        live: &mut Live,
    ) -> Result<(), Failure> {
        live.go_to(live.place_forth())?;
        tell_back(rt, live)
    }

    /// Plays the files again, where they have changed.
    fn follow<R: Runtime + AllocGlobal>(&mut self, rt: &R, live: &mut Live) -> Result<(), Failure> {
        match self.followed.look(rt)? {
            Look::Same => Ok(()),
            Look::Changed => self.renew(rt, live),
            Look::Unread(name) => {
                live.notify(unread_text(rt.alloc(), name.as_str())?);
                Ok(())
            }
        }
    }

    /// Plays what has changed; where it cannot be played, the play stays, and why is told.
    fn renew<R: Runtime + AllocGlobal>(&mut self, rt: &R, live: &mut Live) -> Result<(), Failure> {
        self.followed.exchange();
        let place = live.place();
        match self.restart(rt, live, place) {
            Ok(()) => {
                live.notify(changed_text(rt.alloc(), live.inputs())?);
                Ok(())
            }
            Err(Unplayable::NoMemory) => Err(Failure::Failed),
            Err(why) => {
                let notice = unreadable_text(rt.alloc(), self.followed.given(), &why)?;
                self.followed.exchange();
                live.notify(notice);
                Ok(())
            }
        }
    }

    /// Plays so much of what was posted again, from the start of the files.
    fn restart<R: Runtime + AllocGlobal>(
        &mut self,
        rt: &R,
        live: &mut Live,
        place: usize,
    ) -> Result<(), Unplayable> {
        let given = self.followed.given();
        let engine = engine_of(rt.alloc(), given.files.as_slice(), &given.chosen)?;
        self.placed = None;
        live.restart(engine, place)?;
        Ok(())
    }

    /// Finds where the actions stand that were faults, if there are others than before.
    fn place_faults<R: Runtime + AllocGlobal>(
        &mut self,
        rt: &R,
        live: &mut Live,
    ) -> Result<(), Failure> {
        let count = live.engine().faults().len();
        if self.placed == Some(count) {
            return Ok(());
        }
        let given = self.followed.given();
        let places = if count == 0 {
            Vec::new(rt.alloc())
        } else {
            fault_places(
                rt.alloc(),
                given.files.as_slice(),
                live.script(),
                &given.chosen,
            )?
        };
        live.place_faults(places);
        self.placed = Some(count);
        Ok(())
    }
}

/// What has passed is ticked before an input, unless a step back has left something: time stands still then.
fn pass(live: &mut Live, now: u64) -> Result<(), Failure> {
    if live.is_back() {
        live.skip(now);
    } else {
        live.pass(now)?;
    }
    Ok(())
}

/// Tells how far the play is, if a step back has left something.
fn tell_back<R: Runtime + AllocGlobal>(rt: &R, live: &mut Live) -> Result<(), Failure> {
    if live.is_back() {
        live.notify(back_text(rt.alloc(), live.inputs())?);
    }
    Ok(())
}
