// What is true of earliest-deadline-first service of released jobs. The functions answer nothing: a contract is the theorem, in the words of specs/.
ghost use Rattle.edf.specs.Earliest.{ChosenIsEarliest};
ghost use Rattle.edf.specs.Timeliness.{LateHasCause, NeverLate, OnTimeSoFar, FirstMiss, MissNamesRefused};
ghost use Rattle.edf.specs.Service.{JobsServed, JobsMet, NoJobOverserved, TicksBelong, FinishedIsLast, ReportsInTime, ServesIffNeverOverloaded};
ghost use Rattle.edf.specs.Refusal.{RefusedIsFirst};
ghost use Rattle.edf.specs.Reading.{TickReads, TraceReads, MetReads};
ghost use Rattle.edf.specs.Periodic.{PositionTellsReleases, OneCycleIsEnough, CycleDecides, CycleRunDecides, CycleEndsEmpty, RunRepeats};
ghost use Rattle.edf.specs.Cycle.{CycleFound};

// The choice of a tick is the only one that the rule of the earliest deadline allows.
pub fn chosen_is_earliest()
    ensures { ChosenIsEarliest }
{}

// A task is late only where an overloaded span ends, after any ticks and done reports.
pub fn late_has_cause()
    ensures { LateHasCause }
{}

// Where no span is overloaded nobody is ever late, after any ticks and done reports.
pub fn never_late()
    ensures { NeverLate }
{}

// As long as nobody was late, no overloaded span has ended.
pub fn on_time_so_far()
    ensures { OnTimeSoFar }
{}

// Without done reports the first late task shows at the smallest end of an overloaded span.
pub fn first_miss()
    ensures { FirstMiss }
{}

// Where the first late task shows, the last start of an overloaded span to there gives the span that a refusal names.
pub fn miss_names_refused()
    ensures { MissNamesRefused }
{}

// Where no span is overloaded every job gets exactly its work in time, or is reported done in time.
pub fn jobs_served()
    ensures { JobsServed }
{}

// Where no span is overloaded every job whose deadline has passed is met.
pub fn jobs_met()
    ensures { JobsMet }
{}

// No job gets more ticks than its work.
pub fn no_job_overserved()
    ensures { NoJobOverserved }
{}

// A tick that serves a task belongs to one released job of it.
pub fn ticks_belong()
    ensures { TicksBelong }
{}

// A tick says finished exactly if with it its job has got all its work.
pub fn finished_is_last()
    ensures { FinishedIsLast }
{}

// Where no span is overloaded, a report is accepted only for a job whose deadline has not passed.
pub fn reports_in_time()
    ensures { ReportsInTime }
{}

// Some timetable serves exactly when no span is overloaded.
pub fn serves_iff_never_overloaded()
    ensures { ServesIffNeverOverloaded }
{}

// The span that is found is the only one that no other precedes.
pub fn refused_is_first()
    ensures { RefusedIsFirst }
{}

// A tick reads the counters of its tasks and, of its number, only who releases.
pub fn tick_reads()
    ensures { TickReads }
{}

// The counters before a tick depend only on the done reports before it.
pub fn trace_reads()
    ensures { TraceReads }
{}

// Whether a job is met depends only on the ticks and reports from its release to its deadline.
pub fn met_reads()
    ensures { MetReads }
{}

// What is released at a tick is what is released at its position in the cycle.
pub fn position_tells_releases()
    ensures { PositionTellsReleases }
{}

// If some span is overloaded, one within the first cycle is, and it ends no later.
pub fn one_cycle_is_enough()
    ensures { OneCycleIsEnough }
{}

// The refused span is found among the spans of one cycle, and none is found exactly if no span is overloaded.
pub fn cycle_decides()
    ensures { CycleDecides }
{}

// Running the steps through one cycle meets a late task exactly if some span is overloaded, and first where the refused span ends.
pub fn cycle_run_decides()
    ensures { CycleRunDecides }
{}

// At every multiple of the cycle, after step 1, nothing is open.
pub fn cycle_ends_empty()
    ensures { CycleEndsEmpty }
{}

// Where no span is overloaded, a run without done reports repeats by the cycle.
pub fn run_repeats()
    ensures { RunRepeats }
{}

// The cycle is found one number after the other, and a value so far above a limit decides.
pub fn cycle_found()
    ensures { CycleFound }
{}
