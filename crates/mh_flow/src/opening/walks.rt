//! `Walks`: the actions that go on from where their targets come to, by the variable through which they have them.
//!
//! Promise: those of a group through a variable are found by two look-ups, in written order, so that what a variable holds
//! is not asked of actions that have nothing to do with it.
ghost use Rattle.std.specs.Prelude.{◌≡◌, ◌++◌, ◌∷◌, [], if◌then◌else◌, map, slice_get, unwrap_or, Some, IfOk, OnOk};
ghost use Rattle.std.specs.List.{flat_map};
ghost use Rattle.std.specs.Map.{lookup};
ghost use Rattle.std.specs.Option.{option_copied, option_map_or};
ghost use Rattle.mh_model.specs.Reference.{same_key};
ghost use Rattle.mh_model.specs.Service.{group_parts};
ghost use Rattle.mh_flow.specs.Walks as spec;
ghost use Rattle.mh_flow.specs.Walks.{AreTables, IsTableOf, goes_through, listed, walk_if, walks_of};

use crate::equipped::Equipped;
use crate::references::targeted_by;
use crate::sites::{Site, sites};
use indexmap::IndexMap;
use mh_base::{GroupName, ObjRef, Seq};
use mh_model::{Act, Fixed, FixedPart};
use std::alloc::{AllocError, Global};
use std::marker::Model;

/// An action, and the object whose effect has it.
#[derive(Drop)]
pub(crate) struct Walk<'a> {
    pub part: &'a Fixed,
    pub act: &'a Act,
}

impl<'a> Model for Walk<'a> {
    ghost use Rattle.mh_flow.specs.Walks.{Walk as WalkValue};

    ghost Value = { WalkValue };

    ghost view = { λ w. record { part = w.part.now; act = w.act.now } };
}

/// Those of a group, under the variables through which they go on.
type Table<'a> = IndexMap<ObjRef, Seq<Walk<'a>>>;

/// Those of a service, group by group.
#[derive(Drop)]
pub(crate) struct Walks<'a> {
    service: &'a Equipped<'a>,
    tables: Vec<Table<'a>>,
    /// What stands under a variable through which nothing goes on.
    none: Seq<Walk<'a>>,
}

impl<'a> Model for Walks<'a> {
    ghost use Rattle.std.specs.Prelude.{◌≡◌, [], map};
    ghost use Rattle.mh_model.specs.Service.{Service};
    ghost use Rattle.mh_flow.specs.Walks.{AreTables};

    ghost Value = { Service };

    ghost view = { λ w. w.service.now };

    ghost invariant = { λ w. AreTables w.service.now (map (λ t. t.entries) w.tables.items) × (w.none ≡ []) };
}

/// Puts the first action under its variable.
fn start<'a>(
    alloc: Global,
    table: &mut Table<'a>,
    variable: &ObjRef,
    walk: Walk<'a>,
) -> Result<(), AllocError>
    ensures { OnOk result
        ((q : _) →
        lookup (same_key q) table.new.entries
        ≡ (if same_key variable.now q then Some (walk.entry ∷ []) else lookup (same_key q) table.old.entries)) }
{
    let key = variable.clone()?;
    let mut walks = Seq::new(alloc);
    walks.push(walk)?;
    table.insert(key, walks)?;
    Ok(())
}

/// Puts an action behind those under its variable.
fn put<'a>(
    alloc: Global,
    table: &mut Table<'a>,
    variable: &ObjRef,
    walk: Walk<'a>,
) -> Result<(), AllocError>
    ensures { OnOk result
        ((q : _) →
        listed q table.new.entries
        ≡ listed q table.old.entries ++ (if same_key variable.now q then walk.entry ∷ [] else [])) }
{
    match table.get_mut(variable) {
        Some(walks) => {
            walks.push(walk)?;
            Ok(())
        }
        None => start(alloc, table, variable, walk),
    }
}

/// Puts an action of the object behind those under its variable, if it goes on through one.
fn put_act<'a>(
    alloc: Global,
    table: &mut Table<'a>,
    part: &'a Fixed,
    act: &'a Act,
) -> Result<(), AllocError>
    ensures { OnOk result
        ((q : _) → listed q table.new.entries ≡ listed q table.old.entries ++ walk_if q part.now act.now) }
{
    match targeted_by(act) {
        None => Ok(()),
        Some(variable) => {
            put(alloc, table, variable, Walk { part, act })?;
            Ok(())
        }
    }
}

/// The same for the actions at these sites, which are those of the object.
fn put_sites<'a>(
    alloc: Global,
    table: &mut Table<'a>,
    part: &'a Fixed,
    sites: &[Site<'a>],
) -> Result<(), AllocError>
    ensures { OnOk result
        ((q : _) →
        listed q table.new.entries
        ≡ listed q table.old.entries ++ flat_map (λ x. walk_if q part.now x.act) sites.now) }
{
    for site in sites {
        put_act(alloc, table, part, site.act)?;
    }
    Ok(())
}

/// The same for the actions of the object.
fn put_part<'a>(alloc: Global, table: &mut Table<'a>, part: &'a Fixed) -> Result<(), AllocError>
    ensures { OnOk result
        ((q : _) → listed q table.new.entries ≡ listed q table.old.entries ++ walks_of q part.now) }
{
    let sites = sites(alloc, part)?;
    put_sites(alloc, table, part, sites.as_slice())?;
    Ok(())
}

/// Those of these objects, under their variables.
fn table_of<'a>(alloc: Global, parts: &'a [FixedPart]) -> Result<Table<'a>, AllocError>
    ensures { IfOk result (λ table. IsTableOf parts.now table.entries) }
{
    let mut table = IndexMap::new(alloc);
    for part in parts {
        put_part(alloc, &mut table, part.get())?;
    }
    Ok(table)
}

/// Those of the group with this number.
fn table_at<'a>(
    alloc: Global,
    service: &'a Equipped<'a>,
    number: usize,
) -> Result<Table<'a>, AllocError>
    ensures { IfOk result (λ table. (g : _) → slice_get service.now.groups number ≡ Some g → IsTableOf g.1 table.entries) }
{
    match service.groups().get_index(number) {
        None => Ok(IndexMap::new(alloc)),
        Some((_, parts)) => table_of(alloc, parts.as_slice()),
    }
}

/// Those of the groups of a service.
fn tables_of<'a>(alloc: Global, service: &'a Equipped<'a>) -> Result<Vec<Table<'a>>, AllocError>
    ensures { IfOk result (λ tables. AreTables service.now (map (λ t. t.entries) tables.items)) }
{
    let mut tables = Vec::new(alloc);
    for number in 0..service.groups().len() {
        tables.push(table_at(alloc, service, number)?)?;
    }
    Ok(tables)
}

impl<'a> Walks<'a> {
    /// Those of the service.
    pub fn of(alloc: Global, service: &'a Equipped<'a>) -> Result<Walks<'a>, AllocError>
        ensures { IfOk result (λ walks. walks ≡ service.now) }
    {
        let tables = tables_of(alloc, service)?;
        Ok(Walks {
            service,
            tables,
            none: Seq::new(alloc),
        })
    }

    /// None.
    pub fn none(&self) -> &[Walk<'a>]
        ensures { result.now ≡ [] }
    {
        self.none.as_slice()
    }

    /// Those of the group that go on through the variable.
    pub fn through(&self, group: &GroupName, variable: &ObjRef) -> &[Walk<'a>]
        ensures { result.now ≡ spec.walks variable.now (group_parts self.now group.now) }
    {
        match self.service.groups().get_index_of(group) {
            None => self.none(),
            Some(number) => self.at(number, variable),
        }
    }

    /// Those of the group with this number.
    fn at(&self, number: usize, variable: &ObjRef) -> &[Walk<'a>]
        ensures { result.now
            ≡ option_map_or (λ g. spec.walks variable.now g.1) (slice_get self.now.groups number) [] }
    {
        match self.tables.get(number) {
            None => self.none(),
            Some(table) => self.listed(table, variable),
        }
    }

    /// Those that stand under the variable in the table.
    fn listed<'b>(&'b self, table: &'b Table<'a>, variable: &ObjRef) -> &'b [Walk<'a>]
        ensures { result.now ≡ listed variable.now table.now.entries }
    {
        match table.get(variable) {
            None => self.none(),
            Some(walks) => walks.as_slice(),
        }
    }
}
