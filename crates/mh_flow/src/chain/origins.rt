//! Which of several references a link can bring from nowhere.
//!
//! Promise: those that are written at the place that the link names, or that its object has at first, and no other.
ghost use Rattle.std.specs.Prelude.{◌≡◌, filter, IfOk, OnOk};
ghost use Rattle.std.specs.List.{flat_map, list_any};
ghost use Rattle.mh_model.specs.Reference.{same_ref as same};
ghost use Rattle.mh_flow.specs.Chart.{with_references};
ghost use Rattle.mh_flow.specs.Origins as spec;
ghost use Rattle.mh_flow.specs.Origins.{AreOrigins};
ghost use Rattle.mh_flow.specs.Steps.{is_one_of};

use crate::chain::link::Link;
use crate::chain::sought::is_sought;
use crate::equipped::Equipped;
use crate::references::{put_firsts, put_handed, put_in_order};
use crate::sites::{Site, sites};
use indexmap::IndexSet;
use mh_base::ObjRef;
use mh_model::parts::same_ref;
use mh_model::{Fixed, FixedPart};
use std::alloc::{AllocError, Global};

/// Puts among these what the object has at first, if the link names the object itself.
fn put_first(begun: &mut IndexSet<ObjRef>, link: &Link, part: &Fixed) -> Result<(), AllocError>
    ensures { OnOk result (begun.new.keys
        ≡ with_references begun.old.keys (spec.first_begun link.now part.now)) }
{
    if link.index == 0 {
        put_firsts(begun, part)?;
    }
    Ok(())
}

/// Puts among these what is written in the action, if the link names it.
fn put_site(begun: &mut IndexSet<ObjRef>, link: &Link, site: &Site<'_>) -> Result<(), AllocError>
    ensures { OnOk result (begun.new.keys
        ≡ with_references begun.old.keys (spec.begun_at link.now site.now)) }
{
    if site.index == link.index {
        put_handed(begun, site.act)?;
    }
    Ok(())
}

#[tactic(auto, using(crate::proofs::ChartLemmas::with_more))]
fn put_sites(
    begun: &mut IndexSet<ObjRef>,
    link: &Link,
    sites: &[Site<'_>],
) -> Result<(), AllocError>
    ensures { OnOk result (begun.new.keys
        ≡ with_references begun.old.keys (flat_map (spec.begun_at link.now) sites.now)) }
{
    for site in sites {
        put_site(begun, link, site)?;
    }
    Ok(())
}

/// Puts among these what the link can bring of the object that it names.
fn put_object(
    alloc: Global,
    begun: &mut IndexSet<ObjRef>,
    link: &Link,
    part: &Fixed,
) -> Result<(), AllocError>
    ensures { OnOk result (begun.new.keys
        ≡ with_references begun.old.keys (spec.begun_in link.now part.now)) }
{
    put_first(begun, link, part)?;
    let sites = sites(alloc, part)?;
    put_sites(begun, link, sites.as_slice())?;
    Ok(())
}

fn put_part(
    alloc: Global,
    begun: &mut IndexSet<ObjRef>,
    link: &Link,
    part: &Fixed,
) -> Result<(), AllocError>
    ensures { OnOk result (begun.new.keys
        ≡ with_references begun.old.keys (spec.begun_by link.now part.now)) }
{
    if same_ref(&part.key, &link.key) {
        put_object(alloc, begun, link, part)?;
    }
    Ok(())
}

fn put_parts(
    alloc: Global,
    begun: &mut IndexSet<ObjRef>,
    link: &Link,
    parts: &[FixedPart],
) -> Result<(), AllocError>
    ensures { OnOk result (begun.new.keys
        ≡ with_references begun.old.keys (flat_map (spec.begun_by link.now) parts.now)) }
{
    for part in parts {
        put_part(alloc, begun, link, part.get())?;
    }
    Ok(())
}

fn put_service(
    alloc: Global,
    begun: &mut IndexSet<ObjRef>,
    link: &Link,
    service: &Equipped<'_>,
) -> Result<(), AllocError>
    ensures { OnOk result (begun.new.keys
        ≡ with_references begun.old.keys (spec.begun service.now link.now)) }
{
    for parts in service.groups().values() {
        put_parts(alloc, begun, link, parts.as_slice())?;
    }
    Ok(())
}

/// What the link can bring, in the order of references.
fn begun_of(
    alloc: Global,
    service: &Equipped<'_>,
    link: &Link,
) -> Result<IndexSet<ObjRef>, AllocError>
    ensures { (q : _) → IfOk result (λ begun. list_any (same q) begun.keys
        ≡ list_any (same q) (spec.begun service.now link.now)) }
{
    let mut begun = IndexSet::new(alloc);
    put_service(alloc, &mut begun, link, service)?;
    put_in_order(&mut begun)?;
    Ok(begun)
}

/// Those of these that are sought.
fn sought_of(
    alloc: Global,
    sought: &IndexSet<ObjRef>,
    references: &[ObjRef],
) -> Result<Vec<ObjRef>, AllocError>
    ensures { IfOk result (λ list. list.items ≡ filter (is_one_of sought.now.keys) references.now) }
{
    let mut list = Vec::new(alloc);
    for at in references {
        if is_sought(sought, at) {
            list.push(at.clone()?)?;
        }
    }
    Ok(list)
}

/// Which of the references that are sought the first of the links can bring, in the order of references.
pub(crate) fn origins_of(
    alloc: Global,
    service: &Equipped<'_>,
    sought: &IndexSet<ObjRef>,
    links: &[Link],
) -> Result<Vec<ObjRef>, AllocError>
    ensures { IfOk result (λ origins. AreOrigins service.now sought.now.keys links.now origins.items) }
{
    match links.first() {
        None => Ok(Vec::new(alloc)),
        Some(link) => {
            let begun = begun_of(alloc, service, link)?;
            sought_of(alloc, sought, begun.as_slice())
        }
    }
}
