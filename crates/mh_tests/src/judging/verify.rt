//! The verifier: that it keeps an accepted service, and hands a refused one back.
use crate::cases::all_hold;
use crate::machine::service::Asked;
use mh_cases::said;
use mh_service::Service;
use mh_verify::{Accepted, Refusal, RefusalKind, verify};
use std::alloc::Global;

fn starts_with_a(service: &Service) -> bool {
    service.start().as_bytes() == b"a".as_slice()
}

/// Whether an accepted service is taken apart and put together again.
fn comes_together(accepted: Accepted) -> bool {
    let (service, rest) = accepted.apart();
    let joined = rest.join(service);
    let is_kept = starts_with_a(joined.service());
    drop(joined);
    is_kept
}

/// Whether the service is handed back.
fn is_handed_back(refusal: Refusal) -> bool {
    let is_back = refusal.kind == RefusalKind::AbsentObject && starts_with_a(&refusal.service);
    drop(refusal);
    is_back
}

/// Whether the service is accepted and kept, or refused and handed back.
fn kept_in(verdict: Result<Accepted, Refusal>) -> (&'static str, bool) {
    match verdict {
        Ok(accepted) => ("accepted", comes_together(accepted)),
        Err(refusal) => ("refused", is_handed_back(refusal)),
    }
}

/// The verdict on the service, where that is kept or handed back.
pub fn verdict(alloc: Global, service: Service) -> Option<Vec<u8>> {
    let (word, is_kept) = kept_in(verify(alloc, service, &[]));
    if is_kept {
        said(alloc, word.as_bytes())
    } else {
        None
    }
}

static KEPT: &str = r#"
a good service
verdict @application
@s {:Scene ("~/s" 0) :Items ( {:Rectangle 10 :OrigBoxSize 24 32} {:IntegerVar 20 :OrigValue 0} ) }
=> accepted;;
a service that moves what is not there
verdict @application
@s {:Scene ("~/s" 0) :OnStartUp (:SetPosition(99 1 1)) }
=> refused"#;

#[test]
fn keeps_the_service(rt: HostRuntime) {
    all_hold::<Asked>(&rt, rt.alloc(), KEPT);
}
