//! The headline, as a law over the definitions.
ghost use Rattle.mh_laws.specs.Headline.{NeverStuck, RunsAlone};
ghost use Rattle.mh_laws.specs.Least.{DerivedIsInEach};
ghost use Rattle.mh_laws.specs.Budget.{NeverWrong, NeverWrongBy, EachIsPaid, Settles, KeepsGoing};

/// The law that from an acceptable service no state of any run is stuck, whatever the day, the files
/// that are there, what comes and whenever, which programs the receiver has and what comes of their
/// calls, and that no fault is met.
pub fn never_stuck()
    ensures { NeverStuck }
{}

/// The law that a run beside no programs of the receiver's own is the one that the definition of runs
/// makes, and that there is no other.
pub fn runs_alone()
    ensures { RunsAlone }
{}

/// The law that what is derived, a configuration that is reached or a reference that is held, is in every flow
/// that is a solution: the flow of what is derived is the least.
pub fn derived_is_in_each()
    ensures { DerivedIsInEach }
{}

/// The law of steps. From an accepted service, by its flow and a layering of its effects, nothing is ever
/// stuck, whatever is posted, whatever programs answer and however far it is run, and the steps that were
/// taken are at most what the start costs and what each input is bound to that was accepted; and so it is
/// for any costs that cover and bounds that are large enough. Each run has such a budget, and once as many
/// steps are made as are left of it, with nothing posted, all is done. For one that plays the service there
/// is what holds of each of its states.
pub fn never_wrong()
    ensures law { NeverWrong }
    ensures by { NeverWrongBy }
    ensures paid { EachIsPaid }
    ensures settles { Settles }
    ensures invariant { KeepsGoing }
{}
