//! `Asked`: an effect of which is asked whether an action puts it to work, and what is granted.
//!
//! Promise: each function answers what the definitions say. Nothing is copied: all is lent.
ghost use Rattle.std.specs.Prelude.{◌≡◌, ◌&&◌, ◌==◌};
ghost use Rattle.std.specs.Option.{option_copied, option_eq};
ghost use Rattle.std.specs.Str.{bytes_eq};
ghost use Rattle.mh_model.specs.Configuration.{present};
ghost use Rattle.mh_model.specs.Reference.{same_key};
ghost use Rattle.mh_model.specs.Service.{group_parts};
ghost use Rattle.mh_laws.specs.Safe.{exchanged};
ghost use Rattle.mh_layers.specs.Reading.{same_setting};
ghost use Rattle.mh_evidence.specs.Putting.{asked};

use crate::there::There;
use mh_base::{GroupName, ObjRef};
use mh_layers::Arrow;
use mh_model::{Act, FixedPart};
use mh_service::Service;
use std::marker::Model;

/// What is asked: whether the action of an arrow, or what that puts, puts the effect of the next arrow to work, done in some
/// configuration.
#[derive(Drop)]
pub(crate) struct Asked<'a> {
    pub service: &'a Service,
    /// The arrow of the action: what it grants, and by what the next is put to work.
    pub arrow: &'a Arrow,
    pub next: &'a Arrow,
    pub act: &'a Act,
    /// Where it is done.
    pub application: &'a GroupName,
    pub scene: Option<&'a GroupName>,
}

impl<'a> Model for Asked<'a> {
    ghost use Rattle.std.specs.Option.{option_copied};
    ghost use Rattle.mh_evidence.specs.Putting.{Asked as AskedValue};

    ghost Value = { AskedValue };

    ghost view = { λ a. record {
      service = a.service.now;
      arrow = a.arrow.now;
      next = a.next.now;
      act = a.act.now;
      config = record { app = a.application.now; scene = option_copied a.scene };
    } };
}

fn same_scene(first: &Option<GroupName>, second: Option<&GroupName>) -> bool
    ensures { result ≡ option_eq bytes_eq first.now (option_copied second.entry) }
{
    match (first, second) {
        (Some(first), Some(second)) => *first == *second,
        (None, None) => true,
        _ => false,
    }
}

impl<'a> Asked<'a> {
    /// Asks it of the action in the configuration of its arrow.
    pub(crate) fn of(
        service: &'a Service,
        arrow: &'a Arrow,
        next: &'a Arrow,
        act: &'a Act,
    ) -> Asked<'a>
        ensures { result ≡ asked service.now arrow.now next.now act.now }
    {
        Asked {
            service,
            arrow,
            next,
            act,
            application: &arrow.cause.config.app,
            scene: arrow.cause.config.scene.as_ref(),
        }
    }

    /// The same behind an exchange for the group.
    pub(crate) fn exchanged<'b>(&'b self, group: &'b GroupName) -> Asked<'b>
        ensures { result ≡ record self.now { config = exchanged self.now.service self.now.config group.now } }
    {
        if self.service.has_application(group) {
            self.with(group, None)
        } else {
            self.with(self.application, Some(group))
        }
    }

    fn with<'b>(&'b self, application: &'b GroupName, scene: Option<&'b GroupName>) -> Asked<'b>
        ensures { result ≡ record self.now { config = record { app = application.now; scene = option_copied scene.entry } } }
    {
        Asked {
            service: self.service,
            arrow: self.arrow,
            next: self.next,
            act: self.act,
            application,
            scene,
        }
    }

    /// The parts of a group.
    pub(crate) fn parts(&self, group: &GroupName) -> &[FixedPart]
        ensures { result.now ≡ group_parts self.now.service group.now }
    {
        self.service.parts(group)
    }

    /// What is present where the effect is that is asked for.
    pub(crate) fn there(&self) -> There<'_>
        ensures { result ≡ present self.now.service self.now.next.cause.config }
    {
        There::of(self.service, &self.next.cause.config)
    }

    /// Whether it is the configuration of the effect that is asked for.
    pub(crate) fn is_there(&self) -> bool
        ensures { result ≡ same_setting self.now.next.cause.config self.now.config }
    {
        let there = &self.next.cause.config;
        there.app == *self.application && same_scene(&there.scene, self.scene)
    }

    /// Whether the effect that is asked for is one of this object, in this configuration.
    pub(crate) fn is_of(&self, at: &ObjRef) -> bool
        ensures { result ≡ (same_setting self.now.next.cause.config self.now.config && same_key self.now.next.cause.at at.now) }
    {
        self.is_there() && self.next.cause.at == *at
    }
}
