// What is true of every runner. The functions answer nothing: each contract is a theorem.
ghost use Rattle.runner.specs.Counted.{LogsCountSo, PromiseBreakers};
ghost use Rattle.runner.specs.Promise.{KeepsItsPromise};
ghost use Rattle.runner.specs.Reached.{CallsReach, ReachedIsOnTime, RulesGoOn};

// For every lawful policy, every list of calls to a new runner keeps the whole promise.
#[tactic(auto, using(crate::proofs::Promised::keeps_its_promise))]
pub fn keeps_its_promise()
    ensures { KeepsItsPromise }
{}

// A new runner's state is reached, and so is what a call leaves of a reached one.
#[tactic(auto, using(crate::proofs::Reaching::calls_reach))]
pub fn calls_reach()
    ensures { CallsReach }
{}

// In a state that is reached a tick reports nobody late.
#[tactic(auto, using(crate::proofs::Reaching::reached_is_on_time))]
pub fn reached_is_on_time()
    ensures { ReachedIsOnTime }
{}

// In small logs a job is met or not as it is written.
pub fn logs_count_so()
    ensures { LogsCountSo }
{}

// Answers that are late, missing, made up, too willing or forgetful break the promise.
#[tactic(auto, using(crate::proofs::Broken::promise_breakers))]
pub fn promise_can_break()
    ensures { PromiseBreakers }
{}

// What the rules answer next, and the state that they leave, keep the promise of the calls before.
#[tactic(auto, using(crate::proofs::Reaching::rules_go_on))]
pub fn rules_go_on()
    ensures { RulesGoOn }
{}
