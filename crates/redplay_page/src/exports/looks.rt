//! Looks at where a session stands: cells of the picture, the state, objects.
ghost use Rattle.std.specs.Prelude.{◌≡◌, None};
ghost use Rattle.mh_crossing.specs.OnSession.{OnSession};
ghost use Rattle.mh_crossing.specs.Rooms.{HandsOut};
ghost use Rattle.mh_model.specs.Picture.{shown};
ghost use Rattle.redplay_page.specs.Cells.{AreCells};
ghost use Rattle.redplay_page.specs.Standing.{IsCellTold, IsObjectTold, IsStateTold, TellsObjects};

use crate::handle::Handle;
use crate::showing::Cell;
use mh_crossing::NO_SESSION;

/// Copies cells, from the beginning of a row on.
#[unsafe(no_mangle)]
pub extern "C" fn redpage_cells(handle: &mut Handle, row: usize, cells: &mut [Cell]) -> u32
    ensures copied { OnSession (λ s t n. AreCells (shown s.tracing.state) row cells.old cells.new n × (t ≡ s)) handle.old.session handle.new.session result }
    ensures none { handle.old.session ≡ None → cells.new ≡ cells.old }
{
    if handle.is_none() {
        return NO_SESSION;
    }
    handle.held().cells(row, cells)
}

/// What `redtry state` prints where the session stands.
#[unsafe(no_mangle)]
pub extern "C" fn redpage_state(handle: &mut Handle, text: &mut [u8], length: &mut usize) -> u32
    ensures told { OnSession (λ s t n. IsStateTold s text.old text.new length.old length.new n × (t ≡ s)) handle.old.session handle.new.session result }
    ensures none { handle.old.session ≡ None → (text.new ≡ text.old) × (length.new ≡ length.old) }
{
    if handle.is_none() {
        return NO_SESSION;
    }
    handle.held().tell_state(text, length)
}

/// What `redtry state --object` prints of an object.
#[unsafe(no_mangle)]
pub extern "C" fn redpage_object(
    handle: &mut Handle,
    group: &[u8],
    number: u32,
    text: &mut [u8],
    length: &mut usize,
) -> u32
    ensures told { OnSession (λ s t n. IsObjectTold group.now number s text.old text.new length.old length.new n × (t ≡ s)) handle.old.session handle.new.session result }
    ensures none { handle.old.session ≡ None → (text.new ≡ text.old) × (length.new ≡ length.old) }
{
    if handle.is_none() {
        return NO_SESSION;
    }
    handle.held().tell_object(group, number, text, length)
}

/// The same of all objects that are present.
#[unsafe(no_mangle)]
pub extern "C" fn redpage_objects(handle: &mut Handle, text: &mut [u8], length: &mut usize) -> u32
    ensures told { OnSession (λ s t n. HandsOut (TellsObjects s) text.old text.new length.old length.new n × (t ≡ s)) handle.old.session handle.new.session result }
    ensures none { handle.old.session ≡ None → (text.new ≡ text.old) × (length.new ≡ length.old) }
{
    if handle.is_none() {
        return NO_SESSION;
    }
    handle.held().tell_objects(text, length)
}

/// The objects that lie at a cell, the top first.
#[unsafe(no_mangle)]
pub extern "C" fn redpage_at(
    handle: &mut Handle,
    row: usize,
    column: usize,
    text: &mut [u8],
    length: &mut usize,
) -> u32
    ensures told { OnSession (λ s t n. IsCellTold row column s text.old text.new length.old length.new n × (t ≡ s)) handle.old.session handle.new.session result }
    ensures none { handle.old.session ≡ None → (text.new ≡ text.old) × (length.new ≡ length.old) }
{
    if handle.is_none() {
        return NO_SESSION;
    }
    handle.held().tell_cell(row, column, text, length)
}
