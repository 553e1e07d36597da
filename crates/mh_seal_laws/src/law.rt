//! What a step looks at of a service, and what a sealed run comes to.
ghost use Rattle.mh_seal_laws.specs.Part.{NotLookedAt, StuckAlike, ShownAlike};
ghost use Rattle.mh_seal_laws.specs.Bringing.{NeverBringsLate};
ghost use Rattle.mh_seal_laws.specs.Sealed.{SealedPlays, SealedGoesWell};
ghost use Rattle.mh_seal_laws.specs.Digests.{DigestsAgree, DigestsGoWell};
ghost use Rattle.mh_seal_laws.specs.Joined.{OfSealIsStubbed};
ghost use Rattle.mh_seal_laws.specs.Told.{EachHasSeal, ToldSealGoesWell};

/// The law that a step looks at nothing of a service but its receiver's programs, the class of each group, the
/// groups that are present and the one that the first item brings; nor do the fault of that item and the
/// picture look at more.
pub fn not_looked_at()
    ensures law { NotLookedAt }
    ensures stuck { StuckAlike }
    ensures shown { ShownAlike }
{}

/// The law that in a run of an acceptable service nothing brings a scene that is still late.
pub fn never_brings_late()
    ensures { NeverBringsLate }
{}

/// The law of seals: beside a seal that is right of the files which are met, the run of an acceptable service
/// whose late scenes are not there is the run of the whole service; and of an accepted one nothing is ever
/// stuck in it, no more steps are taken than the bounds allow of what was taken up, and the picture is the same.
pub fn sealed_plays()
    ensures law { SealedPlays }
    ensures well { SealedGoesWell }
{}

/// The law that a seal by digests is right of the files which are met, unless one of them and the service's own of
/// its name are spelled otherwise and have one digest; and that a run beside it goes well then.
pub fn digests_agree()
    ensures law { DigestsAgree }
    ensures well { DigestsGoWell }
{}

/// The law that what `Service::of_seal` makes of the groups of a service without its late scenes is the service with
/// stubs of which the other laws speak.
pub fn of_seal_is_stubbed()
    ensures { OfSealIsStubbed }
{}

/// The law that a run goes well beside the seal that a head end prints of an accepted service (`mh_seal`), by the bounds
/// that the seal states, unless one of the files that are met and the service's own of its name are spelled otherwise
/// and have one digest.
pub fn told_seal_goes_well()
    ensures { ToldSealGoesWell }
{}

/// The law that each service has such a seal.
pub fn each_has_seal()
    ensures { EachHasSeal }
{}
