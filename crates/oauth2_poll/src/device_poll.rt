//! The state of a poll: its interval, its deadline and how many requests it may still send.

ghost use Rattle.std.specs.Prelude.{
  ◌≡◌,
  ◌↔◌,
  ◌<◌,
  ◌<ℤ◌,
  ◌+ℤ◌,
  pos,
  min,
  max,
  IsTrue,
  IsSome,
  IfSome,
};
ghost use Rattle.std.specs.Duration.{as_nanos};
ghost use Rattle.jiff.specs.Words.{IsTimestampNanos};
ghost use Rattle.oauth2_poll.specs.Step as step;
ghost use Rattle.oauth2_poll.specs.Step.{TimeoutFits, state_after, action_of, action_after};

use jiff::Timestamp;
use std::marker::Model;
use std::time::Duration;

/// The settings of a poll: the `interval` of the device authorization response, the cap of the
/// back-off after a failed call, and how many requests may be sent.
#[derive(Clone, Copy, Debug)]
pub struct PollSettings {
    pub interval: Duration,
    pub cap: Duration,
    pub max_polls: u64,
}

/// Whether a poll may still send a request.
#[derive(Clone, Copy, Debug, PartialEq, Eq)]
pub enum PollReady {
    Ask,
    Expired,
}

/// What the result of a request means to the poll: the call failed, `authorization_pending`,
/// `slow_down`, or any other reply, which decides the poll (RFC 8628, 3.5).
#[derive(Clone, Copy, Debug, PartialEq, Eq)]
pub enum PollAnswer {
    Failed,
    Pending,
    SlowDown,
    Deciding,
}

/// What to do after an answer: sleep and send again, stop at the limit of requests, or stop because
/// the answer decides.
#[derive(Clone, Copy, Debug, PartialEq, Eq)]
pub enum PollStep {
    Sleep(Duration),
    Limit,
    Done,
}

/// A poll of the token endpoint after a device authorization (RFC 8628, 3.4).
#[derive(Drop)]
pub struct DevicePoll {
    interval: Duration,
    cap: Duration,
    deadline: Timestamp,
    polls_left: u64,
}

impl Model for DevicePoll {
    ghost use Rattle.std.specs.Duration.{as_nanos};
    ghost use Rattle.oauth2_poll.specs.State.{PollState};

    ghost Value = { PollState };

    ghost view = { λ p. record {
      interval = as_nanos p.interval;
      cap = as_nanos p.cap;
      deadline = p.deadline.nanosecond;
      polls_left = p.polls_left;
    } };
}

impl DevicePoll {
    /// Whether a timeout has at most 2^63 - 1 whole seconds.
    pub fn timeout_fits(timeout: &Duration) -> bool
        ensures { IsTrue result ↔ TimeoutFits (as_nanos timeout.now) }
    {
        timeout.as_secs() <= 9_223_372_036_854_775_807
    }

    /// A poll that may send requests until `timeout` after `start`. `timeout` is the `expires_in`
    /// of RFC 8628, 3.2, or your own. `None` if that moment is not a `Timestamp`.
    pub fn new(start: Timestamp, timeout: Duration, settings: PollSettings) -> Option<DevicePoll>
        requires { TimeoutFits (as_nanos timeout) }
        ensures variant { IsSome result
            ↔ IsTimestampNanos (start.nanosecond +ℤ pos (as_nanos timeout)) }
        ensures value { IfSome result (λ poll. poll ≡ record {
          interval = as_nanos settings.interval;
          cap = as_nanos settings.cap;
          deadline = start.nanosecond +ℤ pos (as_nanos timeout);
          polls_left = settings.max_polls;
        }) }
    {
        let deadline = start.checked_add(timeout).ok()?;
        Some(DevicePoll {
            interval: settings.interval,
            cap: settings.cap,
            deadline,
            polls_left: settings.max_polls,
        })
    }

    /// `Expired` if `now` is after the deadline. At the deadline itself the poll may still send.
    pub fn ready(&self, now: Timestamp) -> PollReady
        ensures { (result ≡ PollReady.Expired) ↔ (self.now.deadline <ℤ now.nanosecond) }
    {
        if self.deadline.as_nanosecond() < now.as_nanosecond() {
            PollReady::Expired
        } else {
            PollReady::Ask
        }
    }

    /// How many requests the poll may still send.
    pub fn polls_left(&self) -> u64
        ensures { result ≡ self.now.polls_left }
    {
        self.polls_left
    }

    /// Takes the answer to a request, and returns what to do next.
    pub fn answer(&mut self, answer: PollAnswer) -> PollStep
        requires { 0 < self.old.polls_left }
        ensures state { self.new ≡ state_after self.old answer }
        ensures step { action_of result ≡ action_after self.old answer }
    {
        self.interval = next_interval(self.cap, self.interval, answer);
        self.polls_left -= 1;
        if matches!(&answer, PollAnswer::Deciding) {
            PollStep::Done
        } else if self.polls_left == 0 {
            PollStep::Limit
        } else {
            PollStep::Sleep(self.interval)
        }
    }
}

// The interval after an answer.
fn next_interval(cap: Duration, interval: Duration, answer: PollAnswer) -> Duration
    ensures { as_nanos result ≡ step.next_interval (as_nanos cap) (as_nanos interval) answer }
{
    match answer {
        PollAnswer::Failed => backed_off(cap, interval),
        PollAnswer::SlowDown => interval.saturating_add(Duration::from_secs(5)),
        PollAnswer::Pending | PollAnswer::Deciding => interval,
    }
}

// The interval after a failed call: twice as long, but at most the cap, and never shorter than
// before.
fn backed_off(cap: Duration, interval: Duration) -> Duration
    ensures { as_nanos result ≡ step.backed_off (as_nanos cap) (as_nanos interval) }
{
    let doubled = interval.checked_mul(2).unwrap_or(interval);
    longer(interval, shorter(doubled, cap))
}

fn shorter(left: Duration, right: Duration) -> Duration
    ensures { as_nanos result ≡ min (as_nanos left) (as_nanos right) }
{
    if left.as_nanos() < right.as_nanos() {
        left
    } else {
        right
    }
}

fn longer(left: Duration, right: Duration) -> Duration
    ensures { as_nanos result ≡ max (as_nanos left) (as_nanos right) }
{
    if left.as_nanos() < right.as_nanos() {
        right
    } else {
        left
    }
}
