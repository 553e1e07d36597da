//! `Live`: a play at a terminal.
ghost use Rattle.std.specs.Prelude.{◌≡◌, ◌+◌, ◌<◌, ◌^◌, ◌++◌, ◌∷◌, [], None, Some, IfOk, OnOk, length, take};
ghost use Rattle.std.specs.List.{list_any};
ghost use Rattle.mh_model.specs.Step.{obstacle};
ghost use Rattle.mh_live.specs.Playing as spec;
ghost use Rattle.mh_live.specs.Posts.{input_of};
ghost use Rattle.mh_live.specs.Screen.{drawn, screen_of};

use crate::asks::Ask;
use crate::drawing::put_screen;
use crate::post::{Post, input_of, post_of};
use crate::record::opening;
use crate::running::{do_accepted, run_through};
use crate::screen::{Screen, keep, screen_of};
use mh_engine::Engine;
use mh_model::{File, Input, LONGEST_TICK, Timer};
use mh_told::text::Text;
use std::alloc::{AllocError, Global};
use std::marker::Model;

/// How many characters of a line are shown where nobody has told how wide the terminal is.
const USUAL_COLUMNS: usize = 78;

/// An engine that is played from a terminal, with what the terminal shows, the script so far, the milliseconds that were
/// ticked, and what was posted.
#[derive(Drop)]
pub struct Live {
    pub(crate) alloc: Global,
    pub(crate) engine: Engine,
    pub(crate) shown: Option<Screen>,
    pub(crate) columns: usize,
    pub(crate) script: Text,
    pub(crate) ticked: u64,
    /// What was posted from the start on, and how much of it is behind the play.
    pub(crate) asked: Vec<Post>,
    pub(crate) at: usize,
    /// What is told behind the faults, in their order: where their actions stand.
    pub(crate) places: Vec<Text>,
    /// What is told below everything.
    pub(crate) notice: Text,
}

impl Model for Live {
    ghost use Rattle.mh_live.specs.Playing.{Playing};

    ghost Value = { Playing };

    ghost view = { λ l. record {
      play = l.engine;
      shown = l.shown;
      columns = l.columns;
      script = l.script;
      ticked = l.ticked;
      asked = l.asked.items;
      at = l.at;
      places = l.places.items;
      notice = l.notice;
    } };
}

impl Live {
    /// A play that has not begun, and of which nothing is shown.
    pub fn new(alloc: Global, engine: Engine) -> Live
        ensures { result ≡ spec.begun engine }
    {
        Live {
            alloc,
            engine,
            shown: None,
            columns: USUAL_COLUMNS,
            script: Text::new(alloc),
            ticked: 0,
            asked: Vec::new(alloc),
            at: 0,
            places: Vec::new(alloc),
            notice: Text::new(alloc),
        }
    }

    /// The engine, to be looked at.
    pub fn engine(&self) -> &Engine
        ensures { result.now ≡ self.now.play }
    {
        &self.engine
    }

    /// The script that plays the same.
    pub fn script(&self) -> &[u8]
        ensures { result.now ≡ self.now.script }
    {
        self.script.as_slice()
    }

    /// Makes the steps of the start, and records that.
    pub fn begin(&mut self) -> Result<(), AllocError>
        ensures { OnOk result (self.new ≡ spec.entered self.old) }
    {
        self.script.put(opening())?;
        run_through(&mut self.engine)
    }

    /// The clock stands at so many milliseconds from the start. What has passed since the last tick is ticked, a minute at
    /// most: what is left over is ticked the next time.
    pub fn pass(&mut self, now: u64) -> Result<(), AllocError>
        ensures { OnOk result (self.new ≡ spec.passed now self.old) }
    {
        let length = tick_length(self.ticked, now);
        if length == 0 {
            return Ok(());
        }
        self.post(Post::Tick(length))?;
        self.ticked += u64::from(length);
        Ok(())
    }

    /// Time stands still: what has passed is passed over.
    pub fn skip(&mut self, now: u64)
        ensures { self.new ≡ spec.skipped now self.old }
    {
        self.ticked = now;
    }

    /// Whether something can come of what has passed: a timer is due, or it is as long as a tick may be. Until then it
    /// need not be ticked.
    pub fn is_time(&self, now: u64) -> Result<bool, AllocError>
        ensures { IfOk result (λ time. time ≡ spec.is_time now self.now) }
    {
        let length = tick_length(self.ticked, now);
        if length == LONGEST_TICK {
            return Ok(true);
        }
        let moment = u64::from(self.engine.machine().moments().present) + u64::from(length);
        let timers = self.engine.machine().timers()?;
        Ok(is_any_due(timers.as_slice(), moment))
    }

    /// Does what is asked for, where that is an input.
    pub fn take(&mut self, ask: Ask) -> Result<(), AllocError>
        ensures { OnOk result (self.new ≡ spec.took ask self.old) }
    {
        match post_of(ask, self.engine.machine())? {
            Some(post) => self.post(post),
            None => Ok(()),
        }
    }

    /// Brings a content file, whose name and octets a script can say.
    pub fn bring(&mut self, file: File) -> Result<(), AllocError>
        ensures { OnOk result (self.new ≡ spec.posted (Post.File file) self.old) }
    {
        self.post(Post::File(file))
    }

    /// Puts what has to go to the terminal so that it shows the play: all of it at first, and then what has changed.
    pub fn draw(&mut self, text: &mut Text) -> Result<(), AllocError>
        ensures put { let screen = screen_of self.old.places self.old.notice self.old.columns self.old.play in
            OnOk result (text.new ≡ text.old ++ drawn self.old.shown screen) }
        ensures shown { let screen = screen_of self.old.places self.old.notice self.old.columns self.old.play in
            OnOk result (self.new ≡ record self.old { shown = Some screen }) }
    {
        let screen = screen_of(
            self.alloc,
            &mut self.engine,
            self.places.as_slice(),
            &self.notice,
            self.columns,
        )?;
        put_screen(text, self.shown.as_ref(), &screen)?;
        keep(&mut self.shown, screen);
        Ok(())
    }

    /// The terminal shows nothing any more, and so many columns of a line: all is drawn again.
    pub fn resize(&mut self, columns: usize)
        ensures { self.new ≡ record self.old { shown = None; columns = columns } }
    {
        self.shown = None;
        self.columns = columns;
    }

    /// Posts an input, makes steps until nothing is left to do, and records both. One that is refused changes nothing.
    fn post(&mut self, post: Post) -> Result<(), AllocError>
        ensures { OnOk result (self.new ≡ spec.posted post self.old) }
    {
        match input_of(&post, self.engine.machine().service())? {
            Some(input) => self.post_input(input, post),
            None => Ok(()),
        }
    }

    fn post_input(&mut self, input: Input, post: Post) -> Result<(), AllocError>
        ensures { OnOk result (self.new ≡ spec.posted_by (obstacle input self.old.play.state) input post self.old) }
    {
        if self.engine.machine().obstacle(&input).is_some() {
            return Ok(());
        }
        self.post_accepted(input, &post)?;
        self.follow(post)
    }

    /// Posts and records an input that nothing stands against.
    fn post_accepted(&mut self, input: Input, post: &Post) -> Result<(), AllocError>
        requires { obstacle input self.old.play.state ≡ None }
        ensures { OnOk result (self.new ≡ spec.done_by None input post.now self.old) }
    {
        do_accepted(self.alloc, &mut self.engine, &mut self.script, input, post)
    }

    /// Keeps what was posted, behind what is behind the play.
    fn follow(&mut self, post: Post) -> Result<(), AllocError>
        ensures { OnOk result (self.new ≡ spec.followed post self.old) }
    {
        self.asked.truncate(self.at);
        self.asked.push(post)?;
        self.at = self.asked.len();
        Ok(())
    }
}

/// Whether one of the timers is due at this moment.
fn is_any_due(timers: &[Timer], moment: u64) -> bool
    ensures { result ≡ list_any (spec.is_due_by moment) timers.now }
{
    timers.iter().any(|timer| is_due_by(timer, moment))
}

fn is_due_by(timer: &Timer, moment: u64) -> bool
    ensures { result ≡ spec.is_due_by moment timer.now }
{
    timer.due <= moment
}

/// How long the tick is that makes up for what has passed.
fn tick_length(ticked: u64, now: u64) -> u32
    ensures length { result ≡ spec.tick_length ticked now }
    ensures room { ticked + result < 2 ^ 64 }
{
    now.saturating_sub(ticked).min(u64::from(LONGEST_TICK)) as u32
}
