//! What a list group shows, and what comes of a change of its items or of the first one (ISO/IEC
//! 13522-5, ListGroup).
ghost use Rattle.std.specs.Prelude.{None, ◌≡◌, [], true, Some, IfOk};
ghost use Rattle.std.specs.Option.{option_copied};
ghost use Rattle.mh_model.specs.Lists.{cells_placed, halted_members, list_changed, list_items, list_worked, nothing_shown, shows};
ghost use Rattle.mh_model.specs.Tokens.{numbered};
ghost use Rattle.mh_widgets.specs.Does.{Does, placed_with};

use crate::cells::Cells;
use crate::done::Done;
use crate::relisting::relisted;
use crate::showing::{Showing, cells_placed, list_items};
use mh_base::{ObjRef, Value};
use mh_group::ActionName;
use mh_model::{Edit, Item, Listing, Object};
use std::alloc::{AllocError, Global};

/// What AddItem, DelItem, ScrollItems or SetFirstItem makes of the list at this reference. While the
/// list runs, those of its objects halt that are no longer shown, those that are shown are placed, those
/// run that were not shown before, and what its events tell otherwise is told.
pub fn list_worked(
    alloc: Global,
    name: ActionName,
    values: &[Value],
    at: &ObjRef,
    object: &Object,
) -> Result<Done, AllocError>
    ensures done { let said = list_worked name values.now at.now object.now.fixed object.now.body in
        IfOk result (λ done. Does object.now said done) }
    ensures edited { IfOk result (λ done. done.placed.items ≡ placed_with done.edit done.placed.items) }
{
    let list = &object.body.list;
    match relisted(alloc, name, values, object.fixed.get(), list)? {
        Some(list) => list_changed(alloc, at, object, list),
        None => Ok(Done::nothing(alloc)),
    }
}

/// What comes of a list whose items, or the first of them, become these.
fn list_changed(
    alloc: Global,
    at: &ObjRef,
    object: &Object,
    list: Listing,
) -> Result<Done, AllocError>
    ensures done { let said = list_changed at.now object.now.fixed object.now.body (Some list) in
        IfOk result (λ done. Does object.now said done) }
    ensures edited { IfOk result (λ done. done.placed.items ≡ placed_with done.edit done.placed.items) }
{
    let fixed = object.fixed.get();
    let running = object.body.running;
    let before = Showing::of(running, fixed, &object.body.list);
    let after = Showing::of(running, fixed, &list);
    let items = list_items(alloc, at, &before, &after)?;
    let placed = cells_placed(alloc, fixed, &after)?;
    Ok(Done {
        edit: Some(Edit::List(list)),
        placed,
        items,
    })
}

/// What comes of a list that begins to run: it shows its items. Its own body is left to who starts it.
pub fn list_started(alloc: Global, at: &ObjRef, object: &Object) -> Result<Done, AllocError>
    ensures items { let after = shows true object.now.fixed object.now.body.list in
        IfOk result (λ done. done.items.items ≡ list_items at.now nothing_shown after) }
    ensures placed { let after = shows true object.now.fixed object.now.body.list in
        IfOk result (λ done. done.placed.items ≡ cells_placed object.now.fixed after) }
    ensures edit { IfOk result (λ done. done.edit ≡ None) }
{
    let fixed = object.fixed.get();
    let after = Showing::of(true, fixed, &object.body.list);
    let items = list_items(alloc, at, &Showing::nothing(), &after)?;
    let placed = cells_placed(alloc, fixed, &after)?;
    Ok(Done {
        edit: None,
        placed,
        items,
    })
}

/// The object in the cell of a list with this number, from 1 on, while it runs.
pub fn in_cell(object: &Object, number: usize) -> Option<&ObjRef>
    ensures { let now = shows object.now.body.running object.now.fixed object.now.body.list in
        option_copied result ≡ numbered now.items number }
{
    if !object.body.running {
        return None;
    }
    Cells::of(object.fixed.get(), &object.body.list).at(number)
}

/// What comes of a list that stops: the objects that it shows halt.
pub fn list_halted(alloc: Global, object: &Object) -> Result<Vec<Item>, AllocError>
    ensures { let before = shows object.now.body.running object.now.fixed object.now.body.list in
        IfOk result (λ items. items.items ≡ halted_members before.items []) }
{
    let before = Showing::of(object.body.running, object.fixed.get(), &object.body.list);
    let mut items = Vec::new(alloc);
    before.cells().halt_all_but(&mut items, &Cells::empty())?;
    Ok(items)
}
