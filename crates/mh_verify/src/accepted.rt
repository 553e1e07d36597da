//! `Accepted`: a service in whose runs nothing is ever stuck, and whose inputs lead to no more steps than its bounds say.
//!
//! Promise: there is no such value for a service that is not accepted, nor with other bounds, and it is made in this
//! crate alone.
ghost use Rattle.std.specs.Prelude.{◌≡◌};
ghost use Rattle.mh_laws.specs.Acceptable.{IsAcceptable};
ghost use Rattle.mh_flow.specs.Equipment.{equipped};
ghost use Rattle.mh_flow.specs.Solved.{IsFlowOf};
ghost use Rattle.mh_layers.specs.Bounding.{bound_by};
ghost use Rattle.mh_verify.specs.Free.{IsAcceptedBy, IsVerified, IsWarranted};

use mh_flow::Flow;
use mh_layers::{Bounds, InputKind};
use mh_model::Signature;
use mh_service::Service;
use std::marker::Model;

/// What is known of an accepted service, without the service: its flow, its bounds, and the programs that the
/// receiver has for it besides the built-in ones.
#[derive(Drop)]
pub struct Warrant {
    flow: Flow,
    bounds: Bounds,
    programs: Vec<Signature>,
}

impl Model for Warrant {
    ghost use Rattle.mh_verify.specs.Free.{Warrant as WarrantValue};

    ghost Value = { WarrantValue };

    ghost view = { λ r. record { flow = r.flow; bounds = r.bounds; programs = r.programs.items } };
}

/// A service that the verifier accepts. A contract sees the service, with the programs that the receiver has for it, and
/// its bounds.
#[derive(Drop)]
pub struct Accepted {
    service: Service,
    warrant: Warrant,
}

impl Model for Accepted {
    ghost use Rattle.mh_flow.specs.Equipment.{equipped};
    ghost use Rattle.mh_verify.specs.Free.{IsWarranted, Verified};

    ghost Value = { Verified };

    ghost view = { λ a. record {
      service = equipped a.service a.warrant.programs;
      bounds = a.warrant.bounds;
    } };

    ghost invariant = { λ a. IsWarranted (equipped a.service a.warrant.programs) a.warrant };
}

impl Accepted {
    /// The service, which no active action can get stuck in where it is reached.
    pub fn service(&self) -> &Service
        ensures same { equipped result.now self.now.service.programs ≡ self.now.service }
        ensures acceptable { IsAcceptable self.now.service }
    {
        &self.service
    }

    /// To what its variables may refer and which items its lists may have, in each configuration that is reached. It is by
    /// this flow that the service is accepted.
    pub fn flow(&self) -> &Flow
        ensures flow { IsFlowOf self.now.service result.now }
        ensures accepted { IsAcceptedBy self.now.service result.now self.now.bounds }
    {
        self.warrant.flow()
    }

    /// The most steps to which its start and an input of each kind can lead.
    pub fn bounds(&self) -> Bounds
        ensures same { result ≡ self.now.bounds }
        ensures verified { IsVerified self.now }
    {
        self.warrant.bounds
    }

    /// The most steps to which the start, or an input of this kind, can lead.
    pub fn bound(&self, kind: InputKind) -> u64
        ensures { result ≡ bound_by self.now.bounds kind }
    {
        self.warrant.bounds.of(kind)
    }

    /// The programs that the receiver has for it besides the built-in ones.
    pub fn programs(&self) -> &[Signature]
        ensures { result.now ≡ self.now.service.programs }
    {
        self.warrant.programs()
    }

    /// The service, and what is known of it.
    pub fn apart(self) -> (Service, Warrant)
        ensures same { equipped result.0 result.1.programs ≡ self.service }
        ensures bounds { result.1.bounds ≡ self.bounds }
        ensures warranted { IsWarranted self.service result.1 }
        ensures acceptable { IsAcceptable self.service }
    {
        let Accepted { service, warrant } = self;
        (service, warrant)
    }
}

impl Warrant {
    pub(crate) fn new(flow: Flow, bounds: Bounds, programs: Vec<Signature>) -> Warrant
        ensures { result ≡ record { flow = flow; bounds = bounds; programs = programs.items } }
    {
        Warrant {
            flow,
            bounds,
            programs,
        }
    }

    fn flow(&self) -> &Flow
        ensures { result.now ≡ self.now.flow }
    {
        &self.flow
    }

    /// The most steps to which the start of the service and an input of each kind can lead.
    pub fn bounds(&self) -> Bounds
        ensures { result ≡ self.now.bounds }
    {
        self.bounds
    }

    /// The programs that the receiver has besides the built-in ones.
    pub fn programs(&self) -> &[Signature]
        ensures { result.now ≡ self.now.programs }
    {
        self.programs.as_slice()
    }

    /// The accepted service again, from its two parts.
    pub fn join(self, service: Service) -> Accepted
        requires { IsWarranted (equipped service self.programs) self }
        ensures same { result ≡ record { service = equipped service self.programs; bounds = self.bounds } }
        ensures verified { IsVerified result }
        ensures acceptable { IsAcceptable (equipped service self.programs) }
    {
        Accepted {
            service,
            warrant: self,
        }
    }
}
