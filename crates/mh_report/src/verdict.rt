//! The verdict on a service.
ghost use Rattle.std.specs.Prelude.{◌≡◌, [], IfOk, IfErr, OnOk};
ghost use Rattle.mh_laws.specs.Budget.{IsAccepted};
ghost use Rattle.mh_verify.specs.Free.{IsVerified, most_cost};
ghost use Rattle.mh_verify.specs.Order.{IsTold};

use mh_service::Service;
use mh_verify::{Accepted, Refusal, verify};
use std::alloc::Global;

/// What the verifier says of a service, for an engine that has the built-in programs alone.
pub fn verified(alloc: Global, service: Service) -> Result<Accepted, Refusal>
    requires { service.programs ≡ [] }
    ensures same { IfOk result (λ accepted. accepted.service ≡ service) }
    ensures verified { IfOk result (λ accepted. IsVerified accepted) }
    ensures accepted { OnOk result (IsAccepted most_cost service) }
    ensures told { IfErr result (IsTold service []) }
{
    verify(alloc, service, &[])
}
