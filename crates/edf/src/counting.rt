// What each job of a plan gets, counted by the ticks answered and the done reports accepted.
ghost use Rattle.edf.specs.Counting.{MandatoryJobsMet, EnoughJobsMet, TicksGoToMarkedJobs, JobsGetAtMostTheirWork, ReportsComeInTime};
ghost use Rattle.edf.specs.Counted.{LogsCountSo};

// Where no span is overloaded, every mandatory job whose deadline has passed was met.
pub fn mandatory_jobs_met()
    ensures { MandatoryJobsMet }
{}

// Where no span is overloaded, of any k jobs of a task in a row whose deadlines have passed at least m were met.
pub fn enough_jobs_met()
    ensures { EnoughJobsMet }
{}

// No unmarked job gets a tick.
pub fn ticks_go_to_marked_jobs()
    ensures { TicksGoToMarkedJobs }
{}

// No job gets more ticks than its work.
pub fn jobs_get_at_most_their_work()
    ensures { JobsGetAtMostTheirWork }
{}

// Where no span is overloaded, a report is accepted only for a job whose deadline has not passed.
pub fn reports_come_in_time()
    ensures { ReportsComeInTime }
{}

// In small logs a job is met or not as it is written.
pub fn logs_count_so()
    ensures { LogsCountSo }
{}
