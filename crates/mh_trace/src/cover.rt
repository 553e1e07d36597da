//! What traces have covered of a service: which actions of each effect were done, and which groups were entered.

pub(crate) mod row;
pub(crate) mod rows;

ghost use Rattle.std.specs.Prelude.{◌≡◌, ◌++◌, ◌≤◌, OnOk, IfOk, length};
ghost use Rattle.mh_trace.specs.Cover as spec;
ghost use Rattle.mh_trace.specs.Directory.{written_at};

use crate::cover::row::{GroupRow, Row};
use crate::cover::rows::{all_groups, all_rows};
use crate::directory::Directory;
use crate::site::Site;
use crate::tracer::Tracer;
use crate::tracer::places::{add_name, add_site};
use crate::words::put_place;
use indexmap::IndexSet;
use mh_base::GroupName;
use mh_service::Service;
use mh_told::text::Text;
use std::alloc::{AllocError, Global};
use std::marker::Model;

/// What several scripts have done and entered, each once.
#[derive(Drop)]
pub struct Covered {
    done: IndexSet<Site>,
    entered: IndexSet<GroupName>,
}

impl Model for Covered {
    ghost use Rattle.mh_trace.specs.Cover.{Covering};

    ghost Value = { Covering };

    ghost view = { λ c. record { done = c.done.keys; entered = c.entered.keys } };
}

impl Covered {
    /// Nothing yet.
    pub fn new(alloc: Global) -> Covered
        ensures { result ≡ spec.uncovered }
    {
        Covered {
            done: IndexSet::new(alloc),
            entered: IndexSet::new(alloc),
        }
    }

    /// Adds what one more script has done and entered.
    pub fn add(&mut self, tracer: &Tracer) -> Result<(), AllocError>
        ensures { OnOk result (self.new ≡ spec.covered_by tracer.now self.old) }
    {
        add_sites(&mut self.done, tracer.done())?;
        add_names(&mut self.entered, tracer.entered())
    }

    /// The lines on all effects and groups of the service, and a count; `tap` as test harnesses read them.
    pub fn text(
        &self,
        alloc: Global,
        service: &Service,
        directory: &Directory,
        tap: bool,
    ) -> Result<Text, AllocError>
        ensures { IfOk result (λ text. text ≡ spec.cover_text tap directory.now self.now service.now) }
    {
        let rows = all_rows(alloc, service, &self.done)?;
        let groups = all_groups(alloc, service, &self.entered)?;
        let mut text = Text::new(alloc);
        put_cover(
            &mut text,
            tap,
            directory,
            rows.as_slice(),
            groups.as_slice(),
        )?;
        Ok(text)
    }
}

fn add_sites(sites: &mut IndexSet<Site>, more: &[Site]) -> Result<(), AllocError>
    ensures { OnOk result (sites.new.keys ≡ spec.add_sites sites.old.keys more.now) }
{
    for site in more {
        add_site(sites, site.copied()?)?;
    }
    Ok(())
}

fn add_names(names: &mut IndexSet<GroupName>, more: &[GroupName]) -> Result<(), AllocError>
    ensures { OnOk result (names.new.keys ≡ spec.add_names names.old.keys more.now) }
{
    for name in more {
        add_name(names, name)?;
    }
    Ok(())
}

#[tactic(auto, unfolding(crate::specs::Cover::cover_by))]
fn put_cover(
    text: &mut Text,
    tap: bool,
    directory: &Directory,
    rows: &[Row],
    groups: &[GroupRow],
) -> Result<(), AllocError>
    ensures { OnOk result (text.new ≡ text.old ++ spec.cover_by tap directory.now rows.now groups.now) }
{
    let count = rows.len() as u64 + groups.len() as u64;
    let covered = whole_count(rows) as u64 + entered_count(groups) as u64;
    put_plan(text, tap, count)?;
    put_rows(text, tap, directory, rows)?;
    put_groups(text, tap, groups)?;
    put_covered(text, tap, covered, count)
}

#[tactic(auto, unfolding(crate::specs::Cover::plan_line))]
fn put_plan(text: &mut Text, tap: bool, count: u64) -> Result<(), AllocError>
    ensures { OnOk result (text.new ≡ text.old ++ spec.plan_line tap count) }
{
    if !tap {
        return Ok(());
    }
    text.put(b"1..")?;
    text.put_number(count)?;
    text.put(b"\n")
}

fn put_rows(
    text: &mut Text,
    tap: bool,
    directory: &Directory,
    rows: &[Row],
) -> Result<(), AllocError>
    ensures { OnOk result (text.new ≡ text.old ++ spec.row_lines tap directory.now rows.now) }
{
    for row in rows {
        put_row(text, tap, directory, row)?;
    }
    Ok(())
}

#[tactic(auto, unfolding(crate::specs::Cover::row_line))]
fn put_row(text: &mut Text, tap: bool, directory: &Directory, row: &Row) -> Result<(), AllocError>
    ensures { OnOk result (text.new ≡ text.old ++ spec.row_line tap directory.now row.now) }
{
    text.put(row_word(tap, row))?;
    put_place(text, &row.object, row.kind)?;
    put_counts(text, row)?;
    put_first_place(text, directory, row)?;
    text.put(b"\n")
}

/// Puts how many actions of an effect were done, and how many it has.
#[tactic(auto, unfolding(crate::specs::Cover::row_counts))]
fn put_counts(text: &mut Text, row: &Row) -> Result<(), AllocError>
    ensures { OnOk result (text.new ≡ text.old ++ spec.row_counts row.now) }
{
    text.put(b", ")?;
    text.put_number(row.done as u64)?;
    text.put(b" of ")?;
    text.put_number(row.all as u64)
}

/// Puts where the first action of an effect is written.
fn put_first_place(text: &mut Text, directory: &Directory, row: &Row) -> Result<(), AllocError>
    ensures { OnOk result (text.new ≡ text.old ++ written_at directory.now (spec.first_site row.now)) }
{
    let site = first_site(row)?;
    directory.put_written(text, &site)
}

/// The first action of an effect.
fn first_site(row: &Row) -> Result<Site, AllocError>
    ensures { IfOk result (λ site. site ≡ spec.first_site row.now) }
{
    Ok(Site {
        object: row.object.clone()?,
        kind: row.kind,
        number: 1,
    })
}

fn row_word(tap: bool, row: &Row) -> &'static [u8]
    ensures { result.now ≡ spec.row_word tap row.now }
{
    match (tap, row.is_whole()) {
        (true, true) => b"ok - ",
        (true, false) => b"not ok - ",
        (false, true) => b"done ",
        (false, false) => part_word(row.done),
    }
}

#[tactic(auto, unfolding(crate::specs::Cover::part_word))]
fn part_word(done: usize) -> &'static [u8]
    ensures { result.now ≡ spec.part_word done }
{
    if done == 0 { b"never " } else { b"part " }
}

fn put_groups(text: &mut Text, tap: bool, groups: &[GroupRow]) -> Result<(), AllocError>
    ensures { OnOk result (text.new ≡ text.old ++ spec.group_lines tap groups.now) }
{
    for group in groups {
        put_group(text, tap, group)?;
    }
    Ok(())
}

#[tactic(auto, unfolding(crate::specs::Cover::group_line))]
fn put_group(text: &mut Text, tap: bool, group: &GroupRow) -> Result<(), AllocError>
    ensures { OnOk result (text.new ≡ text.old ++ spec.group_line tap group.now) }
{
    text.put(entered_word(tap, group.is_entered))?;
    text.put(group_word(group.is_application))?;
    text.put(group.name.as_bytes())?;
    text.put(b"\n")
}

fn entered_word(tap: bool, entered: bool) -> &'static [u8]
    ensures { result.now ≡ spec.entered_word tap entered }
{
    match (tap, entered) {
        (true, true) => b"ok - ",
        (true, false) => b"not ok - ",
        (false, true) => b"done ",
        (false, false) => b"never ",
    }
}

#[tactic(auto, unfolding(crate::specs::Cover::group_word))]
fn group_word(is_application: bool) -> &'static [u8]
    ensures { result.now ≡ spec.group_word is_application }
{
    if is_application {
        b"application "
    } else {
        b"scene "
    }
}

/// How many groups were entered.
fn entered_count(groups: &[GroupRow]) -> usize
    ensures count { result ≡ spec.entered_count groups.now }
    ensures within { result ≤ length groups.now }
{
    groups.iter().filter(|group| group.was_entered()).count()
}

/// How many effects were done whole.
fn whole_count(rows: &[Row]) -> usize
    ensures count { result ≡ spec.whole_count rows.now }
    ensures within { result ≤ length rows.now }
{
    rows.iter().filter(|row| row.is_whole()).count()
}

#[tactic(auto, unfolding(crate::specs::Cover::covered_line))]
fn put_covered(text: &mut Text, tap: bool, covered: u64, count: u64) -> Result<(), AllocError>
    ensures { OnOk result (text.new ≡ text.old ++ spec.covered_line tap covered count) }
{
    if tap {
        text.put(b"# ")?;
    }
    text.put(b"covered ")?;
    text.put_number(covered)?;
    text.put(b" of ")?;
    text.put_number(count)?;
    text.put(b"\n")
}
