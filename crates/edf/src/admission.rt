// What is true of every plan and policy: its cycle, the timetables that serve it, and what decides whether one does.
ghost use Rattle.edf.specs.Plans.{PlanWorkInRange, PlanIsSound};
ghost use Rattle.edf.specs.Admission.{PlanCycleFound, PlanIsPeriodic, PlanWorkByJobs, PlanOverworked, PlanSizes, PlanServesByJobs, PlanServesIffFits, PlanNeverLate, PlanPositionTellsReleases, PlanTickByPosition, PlanOneCycleIsEnough, PlanCycleRunDecides, PlanCycleEndsEmpty, PlanRunRepeats};

// The work of a job is 1 to 1,048,560 ticks.
pub fn plan_work_in_range()
    ensures { PlanWorkInRange }
{}

// Every job is over before the next one of its task.
pub fn plan_is_sound()
    ensures { PlanIsSound }
{}

// The cycle is found one task after the other, and a value so far above 1,048,576 decides.
pub fn plan_cycle_found()
    ensures { PlanCycleFound }
{}

// The releases repeat by the cycle.
pub fn plan_is_periodic()
    ensures { PlanIsPeriodic }
{}

// The work of a span by jobs is its work by release ticks.
pub fn plan_work_by_jobs()
    ensures { PlanWorkByJobs }
{}

// A task whose work is more than its deadline overloads the plan.
pub fn plan_overworked()
    ensures { PlanOverworked }
{}

// How large the numbers of an admission get.
pub fn plan_sizes()
    ensures { PlanSizes }
{}

// To serve the jobs is to serve the releases.
pub fn plan_serves_by_jobs()
    ensures { PlanServesByJobs }
{}

// Some timetable serves exactly when no span is overloaded.
pub fn plan_serves_iff_fits()
    ensures { PlanServesIffFits }
{}

// Where no span is overloaded nobody is ever late, after any ticks and done reports.
pub fn plan_never_late()
    ensures { PlanNeverLate }
{}

// The position in the cycle says what is released.
pub fn plan_position_tells_releases()
    ensures { PlanPositionTellsReleases }
{}

// A tick answers by its position what it answers by its number.
pub fn plan_tick_by_position()
    ensures { PlanTickByPosition }
{}

// The spans of one cycle tell whether any span is overloaded, and which one a refusal carries.
pub fn plan_one_cycle_is_enough()
    ensures { PlanOneCycleIsEnough }
{}

// Running the steps through one cycle meets a late task exactly if some span is overloaded, and first at the smallest end.
pub fn plan_cycle_run_decides()
    ensures { PlanCycleRunDecides }
{}

// At every multiple of the cycle, after step 1, nothing is open.
pub fn plan_cycle_ends_empty()
    ensures { PlanCycleEndsEmpty }
{}

// An admitted run without done reports repeats by the cycle.
pub fn plan_run_repeats()
    ensures { PlanRunRepeats }
{}
