//! Laws about the definitions that contracts cite. A law is a function that does nothing; its
//! contract is what holds.

ghost use Rattle.std.specs.Prelude.{◌≡◌, ◌≤◌, ◌<◌, ◌+◌, ◌-◌, false, List, ℕ};
ghost use Rattle.cred_tries.specs.Clocks.{after_reading, end_of_time, moment};
ghost use Rattle.cred_tries.specs.Counts.{longest_wait, most_tries};
ghost use Rattle.cred_tries.specs.Histories.{IsLimited};
ghost use Rattle.cred_tries.specs.Limits.{Limits, begin_outcome, count_at};
ghost use Rattle.cred_tries.specs.Steps.{Step, TellsTurn, after_step, clock_after, events_at, is_name_of, limits_after, step_name};
ghost use Rattle.cred_tries.specs.Stretches.{FailsBehind, FailsSeldom, IsEarly, QuietBegins, WaitsBehind, judgements};
ghost use Rattle.cred_tries.specs.declared.clock.SteadyClock.{SteadyClock};

use crate::turn::Turn;

/// States the facts at each name, for all calls of a limiter at that name and at others, in any
/// order, and however its clock is set:
///
/// - `seldom`: between two right answers or forgivings at most as many tries fail at the name as
///   the limit says and ten, and one more for each 900 seconds between the first and the last;
/// - `ends`: the same holds for the right answers, the failures and the forgivings alone, which
///   answers tell;
/// - `waits`: once as many as the limit says failed, or began, the next begins only when all of
///   them have failed, and the wait after the last is over;
/// - `fails`: so each failure after those comes only once that wait after the last one is over;
/// - `quiet`: if no failure counts, a try is sent away only while as many run as may run;
/// - `limited`: a try begins exactly if it may begin;
/// - `turn`: `begin` answers the turn that happens at the name;
/// - `later`: no answer names a wait of over 900 seconds, or of none;
/// - `early`: a try is too early only after as many failures as the limit says, and its answer
///   names the seconds until the wait after the last failure is over;
/// - `apart`: a call at another name changes nothing at this one.
pub fn each_name_is_limited()
    ensures seldom { (limit : ℕ) (name : List ℕ) (steps : List Step) → 0 < limit
        → limit ≤ most_tries → FailsSeldom limit (events_at limit name steps) }
    ensures ends { (limit : ℕ) (name : List ℕ) (steps : List Step) → 0 < limit
        → limit ≤ most_tries → FailsSeldom limit (judgements (events_at limit name steps)) }
    ensures waits { (limit : ℕ) (name : List ℕ) (steps : List Step) → 0 < limit
        → WaitsBehind limit (events_at limit name steps) }
    ensures fails { (limit : ℕ) (name : List ℕ) (steps : List Step) → 0 < limit
        → FailsBehind limit (events_at limit name steps) }
    ensures quiet { (limit : ℕ) (name : List ℕ) (steps : List Step) → 0 < limit
        → QuietBegins limit (events_at limit name steps) }
    ensures limited { (limit : ℕ) (name : List ℕ) (steps : List Step) → 0 < limit
        → IsLimited limit (events_at limit name steps) }
    ensures turn { (limit : ℕ) (name : List ℕ) (steps : List Step) (now : ℕ)
        → TellsTurn limit name steps now }
    ensures later { (limits : Limits) (name : List ℕ) (now seconds : ℕ)
        → (begin_outcome limits name now).0 ≡ Turn.Later seconds
        → (0 < seconds) × (seconds ≤ longest_wait) }
    ensures early { (limit : ℕ) (name : List ℕ) (steps : List Step) (now seconds : ℕ) → 0 < limit
        → (begin_outcome (limits_after limit steps) name now).0 ≡ Turn.Later seconds
        → IsEarly limit (moment (clock_after steps) now) seconds
        (judgements (events_at limit name steps)) }
    ensures apart { (limits : Limits) (name : List ℕ) (step : Step)
        → is_name_of name (step_name step) ≡ false
        → count_at (after_step limits step) name ≡ count_at limits name }
{}

/// Time passes as the clock goes forward, and never goes back. A clock that is set back passes no
/// time, so that no wait gets shorter; from its new reading on, time passes as the clock goes.
pub fn time_goes_forward()
    ensures forward { (steps : List Step) (now : ℕ)
        → (clock_after steps).passed ≤ moment (clock_after steps) now }
    ensures back { (steps : List Step) (now : ℕ) → now ≤ (clock_after steps).reading
        → moment (clock_after steps) now ≡ (clock_after steps).passed }
    ensures goes_on { (clock : SteadyClock) (now later : ℕ) → now ≤ later
        → moment clock now + (later - now) ≤ end_of_time
        → moment (after_reading clock now) later ≡ moment clock now + (later - now) }
{}
