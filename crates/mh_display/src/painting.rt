//! The picture is painted anew where it is stale, looking down the display stack.
//!
//! The visibles are painted from the top down, each into the cells alone of which something is still sought; so
//! the walk ends where all cells are settled, and no cell is painted twice.
ghost use Rattle.std.specs.Prelude.{◌≡◌, ◌<◌, ◌+◌, ◌*◌, [], true};
ghost use Rattle.mh_model.specs.Picture.{picture};
ghost use Rattle.mh_model.specs.State.{all};
ghost use Rattle.mh_display.specs.Painting.{IsAll, IsBetween, IsComplete, IsDown, IsSet, marked_at, settled};
ghost use Rattle.mh_display.specs.Surface.{IsClean, IsRight};

use crate::cells::{lowest, without};
use crate::looks::paint_found;
use crate::marked::settled;
use crate::screen::Screen;
use mh_stack::{Stack, Walk};
use mh_store::Objects;

impl Screen {
    /// Paints the stale cells, each by looking down the display stack. It takes no memory.
    pub fn repaint(&mut self, objects: &Objects, stack: &Stack)
        requires { IsRight (all objects.now) stack.now.places self.old }
        ensures right { self.new.planes ≡ picture (all objects.now) stack.now.places }
        ensures clean { IsClean self.new.marks }
    {
        let _ = self.is_whole();
        if self.is_clean() {
            return;
        }
        self.renew();
        paint_down(self, objects, stack.down());
        settle(self);
    }
}

/// Paints one visible below another, as long as a cell is stale.
fn paint_down(screen: &mut Screen, objects: &Objects, stack: Walk<'_>)
    ensures { IsDown (all objects.now) stack.entry [] screen.old screen.new }
{
    let mut left = stack;
    let mut turn = 1;
    while let Some(at) = left.next() {
        paint_found(screen, objects.boxed(at));
        if is_done_at(screen, turn) {
            return;
        }
        turn = next_turn(turn);
    }
}

/// Whether no cell is stale. That is tested once for every eight visibles, by their turns.
fn is_done_at(screen: &mut Screen, turn: u8) -> bool
    ensures same { screen.new ≡ screen.old }
    ensures clean { result ≡ true → IsClean screen.new.marks }
{
    turn == 0 && screen.is_done()
}

/// The turn behind this one, of eight.
fn next_turn(turn: u8) -> u8
    ensures { result < 8 }
{
    if turn < 7 { turn + 1 } else { 0 }
}

/// There is nothing below.
fn settle(screen: &mut Screen)
    ensures settled { IsAll (λ c. settled) (marked_at screen.old) (marked_at screen.new) }
    ensures whole { IsComplete screen.new }
{
    for row in 0..36 {
        settle_row(screen, row);
    }
    let _ = screen.is_whole();
}

fn settle_row(screen: &mut Screen, row: usize)
    requires { row < 36 }
    ensures { IsBetween (λ c. settled) (marked_at screen.old) (marked_at screen.new) (60 * row + 0) (60 * row + 60) }
{
    let mut left = screen.stale_in(row, 0, 60);
    while left != 0 {
        let column = lowest(left);
        settle_cell(screen, row, column);
        left = without(left, column);
    }
}

fn settle_cell(screen: &mut Screen, row: usize, column: usize)
    requires low { row < 36 }
    requires wide { column < 60 }
    ensures { IsSet (marked_at screen.old) (marked_at screen.new) (60 * row + column) (settled (marked_at screen.old (60 * row + column))) }
{
    screen.set(row, column, settled(screen.at(row, column)));
}
