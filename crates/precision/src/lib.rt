// One cycle of the core, beside the plain machine that takes one instruction at a time.
#![tactic(auto)]

ghost use Rattle.precision.specs.Results.{SettingsAreFit, StartsBeside, CycleIsPrecise, CutIsPrecise, StartsWithin, WaitsAreShort};
ghost use Rattle.precision.specs.Lists.{StepsAgree, CutsAgree, NeverStandsStill, RunsAreSteps};
ghost use Rattle.precision.specs.Precise.{LivesArePrecise, StoppedCoresAgree};

// A stopped core has the registers, the data words and the counter of the plain machine, and its fault, if any.
pub fn cycle_is_precise()
    ensures settings { SettingsAreFit }
    ensures starts { StartsBeside }
    ensures cycles { CycleIsPrecise }
    ensures cuts { CutIsPrecise }
{}

// A core that runs gets on, or stops, within the longest delay.
pub fn waits_are_short()
    ensures starts { StartsWithin }
    ensures cycles { WaitsAreShort }
{}

// The same through any list of calls: loads, steps, runs, requests, cuts, amends and resumes, accepted and declined.
pub fn lists_are_precise()
    ensures steps { StepsAgree }
    ensures cuts { CutsAgree }
    ensures moves { NeverStandsStill }
    ensures runs { RunsAreSteps }
{}

// The same through the whole life of a core that was just loaded, whatever is done to it: every report agrees with the
// plain machine beside it, and so does every stopped core.
pub fn lives_are_precise()
    ensures reports { LivesArePrecise }
    ensures stopped { StoppedCoresAgree }
{}
