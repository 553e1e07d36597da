//! `Timers`: which timers a link hears, or an action sets; and `TimerSet`, in which they are found by group and number.
ghost use Rattle.std.specs.Prelude.{◌≡◌, ◌||◌, false, ℤ, IfOk, OnOk};
ghost use Rattle.std.specs.List.{list_any};
ghost use Rattle.mh_lint.specs.Uses as spec;

use indexmap::{IndexMap, IndexSet};
use mh_base::ObjRef;
use std::alloc::{AllocError, Global};
use std::marker::Model;

/// The timers of a group that are meant: that with the number, or any.
#[derive(Drop)]
pub struct Timers {
    pub at: ObjRef,
    pub id: Option<i32>,
}

/// The timers of one group.
#[derive(Drop)]
struct Numbers {
    /// Whether any of its timers is meant.
    has_all: bool,
    numbers: IndexSet<i32>,
}

impl Model for Numbers {
    ghost use Rattle.mh_lint.specs.Uses.{Numbers as NumbersValue};

    ghost Value = { NumbersValue };

    ghost view = { λ n. record { has_all = n.has_all; numbers = n.numbers.keys } };
}

impl Numbers {
    fn new(alloc: Global) -> Numbers
        ensures { (n : ℤ) → spec.numbers_have result n ≡ false }
    {
        Numbers {
            has_all: false,
            numbers: IndexSet::new(alloc),
        }
    }

    fn put(&mut self, id: Option<i32>) -> Result<(), AllocError>
        ensures { OnOk result ((n : ℤ) → spec.numbers_have self.new n ≡ (spec.numbers_have self.old n || spec.has_number id n)) }
    {
        match id {
            Some(number) => {
                self.numbers.insert(number)?;
                Ok(())
            }
            None => {
                self.has_all = true;
                Ok(())
            }
        }
    }

    fn have(&self, number: i32) -> bool
        ensures { result ≡ spec.numbers_have self.now number }
    {
        self.has_all || self.numbers.contains(&number)
    }
}

/// Timers under their groups.
type Table = IndexMap<ObjRef, Numbers>;

/// Timers. A contract sees the list of them; whether one is among them is asked of a table.
#[derive(Drop)]
pub(crate) struct TimerSet {
    list: Vec<Timers>,
    table: Table,
}

impl Model for TimerSet {
    ghost use Rattle.std.specs.Prelude.{List};
    ghost use Rattle.mh_lint.specs.declared.timers.Timers.{Timers as TimersValue};
    ghost use Rattle.mh_lint.specs.Uses.{AreTabled};

    ghost Value = { List TimersValue };

    ghost view = { λ t. t.list.items };

    ghost invariant = { λ t. AreTabled t.list.items t.table.entries };
}

impl TimerSet {
    /// These timers.
    pub(crate) fn of(alloc: Global, list: Vec<Timers>) -> Result<TimerSet, AllocError>
        ensures { IfOk result (λ timers. timers ≡ list.items) }
    {
        let table = table_of(alloc, list.as_slice())?;
        Ok(TimerSet { list, table })
    }

    /// Whether the timer with this number of the group may be one of these.
    pub(crate) fn may_be(&self, at: &ObjRef, number: i32) -> bool
        ensures { result ≡ spec.is_among self.now at.now number }
    {
        match self.table.get(at) {
            Some(numbers) => numbers.have(number),
            None => false,
        }
    }

    pub(crate) fn as_slice(&self) -> &[Timers]
        ensures { result.now ≡ self.now }
    {
        self.list.as_slice()
    }
}

fn table_of(alloc: Global, timers: &[Timers]) -> Result<Table, AllocError>
    ensures { IfOk result (λ table. spec.AreTabled timers.now table.entries) }
{
    let mut table = IndexMap::new(alloc);
    for one in timers {
        put(alloc, &mut table, one)?;
    }
    Ok(table)
}

/// Puts timers under their group.
#[tactic(auto, using(crate::proofs::UseLemmas::had_more))]
fn put(alloc: Global, table: &mut Table, timers: &Timers) -> Result<(), AllocError>
    ensures { OnOk result
        ((r : _) (n : ℤ) → spec.table_has table.new.entries r n ≡ (spec.table_has table.old.entries r n || spec.may_be_timer r n timers.now)) }
{
    match table.get_mut(&timers.at) {
        Some(numbers) => {
            numbers.put(timers.id)?;
            Ok(())
        }
        None => start(alloc, table, timers),
    }
}

/// Puts the first timers of a group.
fn start(alloc: Global, table: &mut Table, timers: &Timers) -> Result<(), AllocError>
    requires { spec.lacks table.old.entries timers.now.at }
    ensures { OnOk result
        ((r : _) (n : ℤ) → spec.table_has table.new.entries r n ≡ (spec.table_has table.old.entries r n || spec.may_be_timer r n timers.now)) }
{
    let key = timers.at.clone()?;
    let mut numbers = Numbers::new(alloc);
    numbers.put(timers.id)?;
    table.insert(key, numbers)?;
    Ok(())
}

/// What links hear of timers, and which actions set.
#[derive(Drop)]
pub(crate) struct KnownTimers {
    heard: TimerSet,
    timed: TimerSet,
    /// The groups of which a link waits for a timer that is never set.
    waiting: IndexSet<ObjRef>,
}

impl Model for KnownTimers {
    ghost use Rattle.mh_lint.specs.Uses.{AreVain, KnownTimers as KnownTimersValue};

    ghost Value = { KnownTimersValue };

    ghost view = { λ k. record { heard = k.heard; timed = k.timed } };

    ghost invariant = { λ k. AreVain k.timed k.heard k.waiting.keys };
}

impl KnownTimers {
    /// What is heard, and what is set.
    pub(crate) fn of(
        alloc: Global,
        heard: TimerSet,
        timed: TimerSet,
    ) -> Result<KnownTimers, AllocError>
        ensures { IfOk result (λ known. known ≡ record { heard = heard; timed = timed }) }
    {
        match vain_groups(alloc, &timed, heard.as_slice()) {
            Ok(waiting) => Ok(KnownTimers {
                heard,
                timed,
                waiting,
            }),
            Err(why) => {
                drop(heard);
                drop(timed);
                Err(why)
            }
        }
    }

    /// Whether no link hears the timer with this number of the group, and none waits in vain for another of it.
    pub(crate) fn leave_alone(&self, group: &ObjRef, number: i32) -> bool
        ensures { result ≡ spec.leave_alone self.now group.now number }
    {
        !self.heard.may_be(group, number) && !self.waiting.contains(group)
    }
}

/// The groups of which a link waits for a timer that is never set.
fn vain_groups(
    alloc: Global,
    set: &TimerSet,
    heard: &[Timers],
) -> Result<IndexSet<ObjRef>, AllocError>
    ensures { IfOk result (λ groups. spec.AreVain set.now heard.now groups.keys) }
{
    let mut groups = IndexSet::new(alloc);
    for one in heard {
        put_vain(&mut groups, set, one)?;
    }
    Ok(groups)
}

fn put_vain(groups: &mut IndexSet<ObjRef>, set: &TimerSet, heard: &Timers) -> Result<(), AllocError>
    ensures { OnOk result
        ((r : _) → spec.is_key_of groups.new.keys r ≡ (spec.is_key_of groups.old.keys r || spec.waits_in_vain set.now r heard.now)) }
{
    match heard.id {
        Some(number) if !set.may_be(&heard.at, number) => {
            groups.insert(heard.at.clone()?)?;
            Ok(())
        }
        _ => Ok(()),
    }
}
