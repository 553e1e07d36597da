//! What is traced is the run of the machine, and `nothing` is told where all objects are as they were.
ghost use Rattle.mh_trace.specs.Nothing.{NothingIsNothing};
ghost use Rattle.mh_trace.specs.Run.{TracesAreRuns, TracesStandInRuns};

/// Whatever the commands, a traced machine is where they lead a machine that is not traced.
pub fn traces_are_runs()
    ensures { TracesAreRuns }
{}

/// Where the line of a step says `nothing`, each object that is present is as it was, not those alone that the step was
/// seen to touch.
pub fn nothing_is_nothing()
    ensures { NothingIsNothing }
{}

/// The same of a part of a run, up to so many steps.
pub fn traces_stand_in_runs()
    ensures { TracesStandInRuns }
{}
