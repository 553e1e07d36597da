//! What never happens, as laws over the definitions.
ghost use Rattle.mh_never.specs.Never.{NeverOthers};
ghost use Rattle.mh_never.specs.Running.{NeverRuns};
ghost use Rattle.mh_never.specs.Saying.{NeverSays};

/// The law of what never happens. Take sets of actions that may come, of objects that may run, of events that may come, of
/// links that may hear something and of effects that may be put to work, each closed under the others; of actions only those
/// count that may come. Of an accepted service no other action is ever on the work list, nothing else ever runs, no other event
/// ever comes, nothing that will be done, waits or may be posted puts another effect to work, unless that costs nothing, and no
/// event that may be dealt with next fires another link.
pub fn never_others()
    ensures { NeverOthers }
{}

/// The law of what never runs. Of an acceptable service nothing ever runs but what is active at first, what an active action
/// can run, what a list can have and the members of token groups that are present.
pub fn never_runs()
    ensures { NeverRuns }
{}

/// The law of what is never said. Of an acceptable service no event comes but with data that is usual of its type, as an active
/// action sends it, of a timer that an active action sets, or for a key that the register of a scene lets through, as it is
/// written or as an active action sets it.
pub fn never_says()
    ensures { NeverSays }
{}
