//! The law of an engine by a seal.
ghost use Rattle.mh_engine.specs.SealedLaw.{BeginsStubbed, StartedGoesWell};

/// The law that an engine begins by the seal of an accepted service as the laws of `mh_seal_laws` want it, and so meets no
/// fault, takes no more steps than the bounds that the seal states allow of what was taken up, and shows what the whole
/// service shows, unless two groups with one digest are met: one that was there or came, and the service's own of its name.
pub fn started_goes_well()
    ensures begins { BeginsStubbed }
    ensures well { StartedGoesWell }
{}
