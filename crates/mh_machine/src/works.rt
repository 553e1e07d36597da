//! `Works`: what a machine is made of, between two of its pictures.
//!
//! A step marks the cells in which it can be seen, and paints nothing; they are painted where the picture is
//! asked for. So many steps are painted once, and those whose picture nobody asks for never.
ghost use Rattle.std.specs.Prelude.{◌≡◌, ◌∷◌, [], ◌+◌, ◌<◌, ◌^◌, None, IfOk, IfErr, OnOk, OnErr, map};
ghost use Rattle.std.specs.Borrow.{sem};
ghost use Rattle.mh_model.specs.Service.{group_parts, fresh, parts};
ghost use Rattle.mh_model.specs.State.{begun, all};
ghost use Rattle.mh_model.specs.Step.{is_idle, is_settled};
ghost use Rattle.mh_model.specs.Picture.{shown};
ghost use Rattle.mh_model.specs.Planes.{blank};
ghost use Rattle.mh_machine.specs.Lent.{WorksStay};
ghost use Rattle.mh_work.specs.Links.{IsIndex};

use crate::Unstarted;
use crate::stage::Stage;
use mh_base::{GroupName, both};
use mh_carousel::Carousel;
use mh_events::Agenda;
use mh_model::{Fault, Interaction, Item, Outcome, Picture, Transition};
use mh_service::Service;
use mh_store::Group;
use mh_work::groups::entrance;
use mh_work::{Links, Work};
use std::alloc::{AllocError, Global};
use std::marker::Model;

/// The works of a machine. A contract sees the state, and which cells are still to be painted.
#[derive(Drop)]
pub struct Works {
    pub(crate) service: Service,
    pub(crate) application: GroupName,
    pub(crate) scene: Option<GroupName>,
    pub(crate) stage: Stage,
    /// The object that interacts, if one does.
    pub(crate) interaction: Option<Interaction>,
    pub(crate) links: Links,
    pub(crate) agenda: Agenda,
    pub(crate) work: Work,
    pub(crate) transition: Transition,
    /// The scenes that are still late.
    pub(crate) late: Vec<GroupName>,
    pub(crate) ended: bool,
    pub(crate) locks: u64,
    pub(crate) frozen: Picture,
    pub(crate) taken: u64,
    pub(crate) faults: Vec<Fault>,
    pub(crate) carousel: Carousel,
    /// The modified Julian day on which the engine began.
    pub(crate) mjd: u32,
    /// What a program of the receiver has said last.
    pub(crate) said: Outcome,
    pub(crate) alloc: Global,
}

impl Model for Works {
    ghost use Rattle.mh_machine.specs.Holds.{Holds};
    ghost use Rattle.mh_machine.specs.Working.{Working};

    ghost Value = { Working };

    ghost view = { λ w. record {
      state = record {
        service = w.service;
        application = w.application;
        scene = w.scene;
        objects = w.stage.objects;
        stack = w.stage.stack;
        interaction = w.interaction;
        timers = w.agenda.timers;
        queue = w.agenda.queue;
        work = w.work.items;
        moments = w.agenda.moments;
        transition = w.transition;
        late = w.late.items;
        ended = w.ended;
        locks = w.locks;
        frozen = w.frozen;
        taken = w.taken;
        faults = w.faults.items;
        files = w.carousel.files;
        waits = w.carousel.waits;
        mjd = w.mjd;
        said = w.said;
      };
      marks = w.stage.marks;
    } };

    ghost invariant = { λ w. Holds w.service w.application w.stage.objects w.links w.locks w.taken };
}

impl Works {
    /// The works at the start: the start application is there, and is about to be entered. Where memory is
    /// refused the service is handed back.
    pub fn new(alloc: Global, service: Service, mjd: u32) -> Result<Works, Unstarted>
        ensures begun { IfOk result (λ works. works.state ≡ begun service mjd) }
        ensures back { IfErr result (λ unstarted. unstarted.service ≡ service) }
    {
        match prepare(alloc, &service) {
            Ok(beginning) => Ok(Works::of(alloc, service, mjd, beginning)),
            Err(_) => Err(Unstarted { service }),
        }
    }

    fn of(alloc: Global, service: Service, mjd: u32, beginning: Beginning) -> Works
        requires application { beginning.application ≡ service.start }
        requires objects { beginning.stage.objects ≡ record { application = map fresh (group_parts service service.start); scene = [] } }
        requires stack { beginning.stage.stack ≡ [] }
        requires own { parts beginning.stage.objects.application ≡ group_parts service service.start }
        requires links { IsIndex beginning.links (parts (all beginning.stage.objects)) }
        requires work { beginning.work.items ≡ Item.Enter service.start ∷ [] }
        requires frozen { beginning.frozen ≡ blank }
        requires late { beginning.late.items ≡ service.late }
        ensures begun { result.state ≡ begun service mjd }
    {
        let Beginning {
            application,
            stage,
            links,
            work,
            frozen,
            late,
        } = beginning;
        Works {
            service,
            application,
            scene: None,
            stage,
            interaction: None,
            links,
            agenda: Agenda::new(alloc),
            work,
            transition: Transition::Rests,
            late,
            ended: false,
            locks: 0,
            frozen,
            taken: 0,
            faults: Vec::new(alloc),
            carousel: Carousel::new(alloc),
            mjd,
            said: Outcome::Failed,
            alloc,
        }
    }

    /// Whether there is no work and nothing that waits.
    pub fn is_idle(&self) -> bool
        ensures { result ≡ is_idle self.now.state }
    {
        self.work.is_empty() && self.agenda.is_empty()
    }

    /// Whether nothing is left to do.
    pub fn is_settled(&self) -> bool
        ensures { result ≡ is_settled self.now.state }
    {
        self.ended || self.is_idle()
    }

    /// The picture that the state shows. What the steps so far have left to be painted is painted now, unless the
    /// screen is locked.
    pub fn picture(&mut self) -> &Picture
        ensures* same { sem 𝓛 (WorksStay self.entry) }
        ensures shown { result.now ≡ shown self.old.state }
    {
        if self.locks == 0 {
            self.stage.picture()
        } else {
            &self.frozen
        }
    }
}

/// What the works begin with that wants memory.
#[derive(Drop)]
struct Beginning {
    application: GroupName,
    stage: Stage,
    links: Links,
    work: Work,
    frozen: Picture,
    late: Vec<GroupName>,
}

fn prepare(alloc: Global, service: &Service) -> Result<Beginning, AllocError>
    ensures application { IfOk result (λ parts. parts.application ≡ service.now.start) }
    ensures objects { IfOk result (λ found. found.stage.objects ≡ record { application = map fresh (group_parts service.now service.now.start); scene = [] }) }
    ensures stack { IfOk result (λ found. found.stage.stack ≡ []) }
    ensures own { IfOk result (λ found. parts found.stage.objects.application ≡ group_parts service.now service.now.start) }
    ensures links { IfOk result (λ found. IsIndex found.links (parts (all found.stage.objects))) }
    ensures work { IfOk result (λ parts. parts.work.items ≡ Item.Enter service.now.start ∷ []) }
    ensures frozen { IfOk result (λ parts. parts.frozen ≡ blank) }
    ensures late { IfOk result (λ parts. parts.late.items ≡ service.now.late) }
{
    let application = service.start().clone()?;
    let parts = service.parts(&application);
    let group = Group::fresh(alloc, &application, parts)?;
    let set = both(Links::of(alloc, parts, &[]), Stage::new(alloc, group));
    let first = both(first_work(alloc, &application), Picture::black(alloc));
    let late = copied_names(alloc, service.late());
    let ((links, stage), ((work, frozen), late)) = both(set, both(first, late))?;
    Ok(Beginning {
        application,
        stage,
        links,
        work,
        frozen,
        late,
    })
}

fn copied_names(alloc: Global, names: &[GroupName]) -> Result<Vec<GroupName>, AllocError>
    ensures { IfOk result (λ copies. copies.items ≡ names.now) }
{
    let mut copies = Vec::new(alloc);
    for name in names {
        copies.push(name.clone()?)?;
    }
    Ok(copies)
}

/// The work at the start: the group is entered.
fn first_work(alloc: Global, group: &GroupName) -> Result<Work, AllocError>
    ensures { IfOk result (λ work. work.items ≡ Item.Enter group.now ∷ []) }
{
    let batches = entrance(alloc, group)?;
    Work::of_batches(alloc, batches)
}
