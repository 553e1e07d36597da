//! `Screen`: what a terminal shows of a play: the picture, and the lines below it.
ghost use Rattle.std.specs.Prelude.{◌≡◌, IfOk, Some};
ghost use Rattle.mh_live.specs.Screen as spec;

use crate::below::lines_below;
use mh_engine::Engine;
use mh_model::Picture;
use mh_told::text::Text;
use std::alloc::{AllocError, Global};
use std::marker::Model;

/// A picture with the lines below it, of which so many characters are shown. A contract sees all three.
#[derive(Drop)]
pub struct Screen {
    pub picture: Picture,
    pub lines: Vec<Text>,
    pub columns: usize,
}

impl Model for Screen {
    ghost use Rattle.mh_live.specs.Screen.{Screen};

    ghost Value = { Screen };

    ghost view = { λ s. record { picture = s.picture; lines = s.lines.items; columns = s.columns } };
}

/// What is to be shown of the engine, with the places of its faults and what is told below everything.
pub fn screen_of(
    alloc: Global,
    engine: &mut Engine,
    places: &[Text],
    notice: &Text,
    columns: usize,
) -> Result<Screen, AllocError>
    ensures screen { IfOk result (λ screen. screen ≡ spec.screen_of places.now notice.now columns engine.old) }
    ensures same { engine.new ≡ engine.old }
{
    let lines = lines_below(alloc, engine, places, notice)?;
    let picture = copy_of(alloc, engine.picture())?;
    Ok(Screen {
        picture,
        lines,
        columns,
    })
}

fn copy_of(alloc: Global, picture: &Picture) -> Result<Picture, AllocError>
    ensures { IfOk result (λ copy. copy ≡ picture.now) }
{
    let mut copy = Picture::black(alloc)?;
    copy.copy_from(picture);
    Ok(copy)
}

/// Keeps what is shown now.
pub fn keep(shown: &mut Option<Screen>, screen: Screen)
    ensures { shown.new ≡ Some screen }
{
    *shown = Some(screen);
}
