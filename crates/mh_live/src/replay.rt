//! Steps back and forth, and files that have changed: what was posted is played again.
ghost use Rattle.std.specs.Prelude.{◌≡◌, ◌+◌, ◌<◌, ◌^◌, [], drop, length, take, OnOk};
ghost use Rattle.mh_live.specs.Playing as spec;

use crate::live::Live;
use crate::post::{Post, input_of, is_tick};
use crate::running::do_accepted;
use mh_engine::Engine;
use mh_told::text::Text;
use std::alloc::AllocError;

impl Live {
    /// Plays so much of what was posted again, on an engine at the start.
    pub fn restart(&mut self, engine: Engine, count: usize) -> Result<(), AllocError>
        ensures { OnOk result (self.new ≡ spec.restarted count engine self.old) }
    {
        self.set_engine(engine);
        self.begin()?;
        self.do_some(0, count)
    }

    /// The play is that of this engine, and nothing is recorded of it yet.
    fn set_engine(&mut self, engine: Engine)
        ensures { self.new ≡ record self.old { play = engine; script = [] } }
    {
        self.engine = engine;
        self.script = Text::new(self.alloc);
    }

    /// Plays what a step back has left, up to a place.
    pub fn go_to(&mut self, place: usize) -> Result<(), AllocError>
        ensures { OnOk result (self.new ≡ spec.gone_to place self.old) }
    {
        self.do_some(self.at, place)
    }

    /// Does what was posted from a place on, up to another.
    fn do_some(&mut self, from: usize, place: usize) -> Result<(), AllocError>
        ensures { OnOk result (self.new ≡ record (spec.done_all (drop from (take place self.old.asked)) self.old) { at = place }) }
    {
        for index in from..place {
            self.do_at(index)?;
        }
        self.stand_at(place);
        Ok(())
    }

    /// So much of what was posted is behind the play.
    fn stand_at(&mut self, place: usize)
        ensures { self.new ≡ record self.old { at = place } }
    {
        self.at = place;
    }

    /// Does what was posted at a place, if anything was.
    fn do_at(&mut self, index: usize) -> Result<(), AllocError>
        ensures { OnOk result (self.new ≡ spec.done_at index self.old) }
    {
        let Some(post) = self.asked.get(index) else {
            return Ok(());
        };
        let Some(input) = input_of(post, self.engine.machine().service())? else {
            return Ok(());
        };
        if self.engine.machine().obstacle(&input).is_some() {
            return Ok(());
        }
        do_accepted(self.alloc, &mut self.engine, &mut self.script, input, post)
    }

    /// How many inputs were posted, ticks aside, up to where the play is, and in all.
    pub fn inputs(&self) -> (usize, usize) {
        let posts = self.asked.as_slice();
        (inputs_in(front_of(posts, self.at)), inputs_in(posts))
    }

    /// How many content files were brought, up to where the play is.
    pub fn files(&self) -> usize {
        let posts = self.asked.as_slice();
        files_in(front_of(posts, self.at))
    }

    /// Where the play is: how much of what was posted is behind it.
    pub fn place(&self) -> usize
        ensures { result ≡ self.now.at }
    {
        self.at
    }

    /// The place of a step back: before the last input.
    pub fn place_back(&self) -> usize
        ensures { result ≡ spec.place_back self.now }
    {
        last_input(front_of(self.asked.as_slice(), self.at))
    }

    /// The place of a step forth: behind the next input, or behind all.
    pub fn place_forth(&self) -> usize
        ensures { result ≡ spec.place_forth self.now }
    {
        next_input(self.at, behind(self.asked.as_slice(), self.at))
    }

    /// Whether a step back has left something.
    pub fn is_back(&self) -> bool
        ensures { result ≡ spec.is_back self.now }
    {
        self.at < self.asked.len()
    }

    /// Tells where the actions stand that were faults, in the order of the faults.
    pub fn place_faults(&mut self, places: Vec<Text>)
        ensures { self.new ≡ record self.old { places = places.items } }
    {
        self.places = places;
    }

    /// Tells something below everything; an empty text is none.
    pub fn notify(&mut self, notice: Text)
        ensures { self.new ≡ record self.old { notice = notice } }
    {
        self.notice = notice;
    }
}

/// So many of the first.
fn front_of(posts: &[Post], count: usize) -> &[Post]
    ensures { result.now ≡ take count posts.now }
{
    if count < posts.len() {
        &posts[..count]
    } else {
        posts
    }
}

/// The place of the last that is no tick, or 0.
fn last_input(posts: &[Post]) -> usize
    ensures { result ≡ spec.last_input 0 0 posts.now }
{
    let mut found = 0;
    let mut place = 0;
    let mut rest = posts;
    while let [post, behind @ ..] = rest {
        if !is_tick(post) {
            found = place;
        }
        place += 1;
        rest = behind;
    }
    found
}

/// The place behind the first that is no tick, where the first has this place, or behind all.
fn next_input(first: usize, posts: &[Post]) -> usize
    requires { first + length posts.now < 2 ^ 64 }
    ensures { result ≡ spec.next_input first posts.now }
{
    let mut place = first;
    let mut rest = posts;
    while let [post, behind @ ..] = rest {
        place += 1;
        if !is_tick(post) {
            return place;
        }
        rest = behind;
    }
    place
}

/// Those from a place on.
fn behind(posts: &[Post], place: usize) -> &[Post]
    ensures rest { result.now ≡ drop place posts.now }
    ensures room { place + length result.now < 2 ^ 64 }
{
    if place < posts.len() {
        &posts[place..]
    } else {
        &[]
    }
}

/// How many of these are no ticks.
fn inputs_in(posts: &[Post]) -> usize {
    posts.iter().filter(|post| !is_tick(post)).count()
}

/// How many of these are content files.
fn files_in(posts: &[Post]) -> usize {
    posts
        .iter()
        .filter(|post| matches!(post, Post::File(_)))
        .count()
}
