//! Lists of places: of the actions on the work list, of those that were done or were faults, and of the groups that were entered.
ghost use Rattle.std.specs.Prelude.{◌≡◌, ◌++◌, ◌<◌, drop, OnOk};
ghost use Rattle.mh_trace.specs.Trace as spec;

use crate::site::Site;
use indexmap::IndexSet;
use mh_base::{GroupName, Seq};
use mh_model::Item;
use std::alloc::{AllocError, Global};
use std::collections::VecDeque;

/// What a step puts that begins no transition: nothing where its entry is a fault.
pub fn put_sites(alloc: Global, is_fault: bool, put: Seq<Site>) -> Seq<Site>
    ensures { result ≡ spec.put_sites is_fault put }
{
    if is_fault { Seq::new(alloc) } else { put }
}

/// The places behind a step that does this item: where a transition has started, those of what closes down, and
/// else those that are put, in front of those that are left.
pub fn place_behind(
    places: &mut VecDeque<Site>,
    front: &Option<Item>,
    started: bool,
    closing: Seq<Site>,
    put: Seq<Site>,
) -> Result<(), AllocError>
    ensures { let left = spec.places_behind front.now places.old.items in
        OnOk result (places.new.items ≡ spec.places_with started closing put left) }
{
    if started {
        places.clear();
        return put_in_front(places, closing.into_vec());
    }
    take_first(places, front);
    put_in_front(places, put.into_vec())
}

/// Takes the first place away, where an action is done.
fn take_first(places: &mut VecDeque<Site>, front: &Option<Item>)
    ensures { places.new.items ≡ spec.places_behind front.now places.old.items }
{
    if let Some(Item::Act(_)) = front {
        drop_first(places);
    }
}

fn drop_first(places: &mut VecDeque<Site>)
    ensures { places.new.items ≡ drop 1 places.old.items }
{
    let _ = places.pop_front();
}

/// Puts these places in front of the others.
fn put_in_front(places: &mut VecDeque<Site>, put: Vec<Site>) -> Result<(), AllocError>
    ensures { OnOk result (places.new.items ≡ put.items ++ places.old.items) }
{
    let mut put = put;
    while let Some(site) = put.pop() {
        places.push_front(site)?;
    }
    Ok(())
}

/// Adds the place of an action, if the step's entry was one, to those that were done, or to those that were faults.
pub fn add_place(
    done: &mut IndexSet<Site>,
    faulted: &mut Vec<Option<Site>>,
    is_fault: bool,
    place: Option<Site>,
) -> Result<(), AllocError>
    ensures done { OnOk result (done.new.keys ≡ spec.done_with is_fault place done.old.keys) }
    ensures faulted { OnOk result (faulted.new.items ≡ spec.faulted_with is_fault place faulted.old.items) }
{
    if is_fault {
        faulted.push(place)?;
        return Ok(());
    }
    match place {
        Some(site) => add_site(done, site),
        None => Ok(()),
    }
}

pub fn add_site(sites: &mut IndexSet<Site>, site: Site) -> Result<(), AllocError>
    ensures { OnOk result (sites.new.keys ≡ spec.add_site site sites.old.keys) }
{
    sites.insert(site)?;
    Ok(())
}

/// Adds the group that the item enters, if it enters one.
pub fn add_entered(
    entered: &mut IndexSet<GroupName>,
    front: &Option<Item>,
) -> Result<(), AllocError>
    ensures { OnOk result (entered.new.keys ≡ spec.entered_with front.now entered.old.keys) }
{
    match front {
        Some(Item::Enter(group)) => add_name(entered, group),
        _ => Ok(()),
    }
}

pub fn add_name(names: &mut IndexSet<GroupName>, name: &GroupName) -> Result<(), AllocError>
    ensures { OnOk result (names.new.keys ≡ spec.add_name name.now names.old.keys) }
{
    names.insert(name.clone()?)?;
    Ok(())
}
