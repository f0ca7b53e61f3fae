//! A whole poll, run over lists of clock readings and answers.

ghost use Rattle.std.specs.Prelude.{◌≡◌, ◌<◌, [], map, slice_get, IfOk};
ghost use Rattle.std.specs.Duration.{as_nanos};
ghost use Rattle.oauth2_poll.specs.Pacing.{SleepsArePaced, ClockIsHonest, RequestsFit};
ghost use Rattle.oauth2_poll.specs.Run.{IsRun, run_input, event_of};

use crate::device_poll::{DevicePoll, PollAnswer, PollReady, PollSettings, PollStep};
use jiff::Timestamp;
use std::alloc::{AllocError, Global};
use std::time::Duration;

/// What a poll did: it read the clock, sent a request, got an answer or slept.
#[derive(Clone, Copy, Debug, PartialEq, Eq)]
pub enum PollEvent {
    Reading(Timestamp),
    Request,
    Answer(PollAnswer),
    Sleep(Duration),
}

/// How a run of a poll ended; `OutOfInput` if it needed more readings or answers than the lists
/// have.
#[derive(Clone, Copy, Debug, PartialEq, Eq)]
pub enum PollEnd {
    TimeoutTooLong,
    DeadlineOutOfRange,
    Expired,
    Limit,
    Done,
    OutOfInput,
}

/// The events of a poll, in order, and its end.
#[derive(Drop)]
pub struct PollRun {
    pub trace: Vec<PollEvent>,
    pub end: PollEnd,
}

impl DevicePoll {
    /// Runs the poll whose clock shows these readings and whose requests get these answers, in
    /// order. The first reading is the start of the poll.
    pub fn run(
        alloc: Global,
        timeout: Duration,
        settings: PollSettings,
        readings: &[Timestamp],
        answers: &[PollAnswer],
    ) -> Result<PollRun, AllocError>
        requires { 0 < settings.max_polls }
        ensures run { IfOk result (λ run. IsRun
            (run_input timeout settings readings.now answers.now)
            (map event_of run.trace.items) run.end) }
        ensures paced { IfOk result (λ run. SleepsArePaced
            (as_nanos settings.interval) (as_nanos settings.cap) (map event_of run.trace.items)) }
        ensures bounded { IfOk result (λ run. ClockIsHonest (map event_of run.trace.items)
            → RequestsFit (as_nanos timeout) (as_nanos settings.interval)
            (map event_of run.trace.items)) }
    {
        let mut trace = Vec::new(alloc);
        let end = follow(&mut trace, timeout, settings, readings, answers)?;
        Ok(PollRun { trace, end })
    }
}

// Appends the events of the poll to the trace, and returns its end.
fn follow(
    trace: &mut Vec<PollEvent>,
    timeout: Duration,
    settings: PollSettings,
    readings: &[Timestamp],
    answers: &[PollAnswer],
) -> Result<PollEnd, AllocError>
    requires polls { 0 < settings.max_polls }
    requires empty { trace.old.items ≡ [] }
    ensures { IfOk result (λ end. IsRun
        (run_input timeout settings readings.now answers.now)
        (map event_of trace.new.items) end) }
{
    if !DevicePoll::timeout_fits(&timeout) {
        return Ok(PollEnd::TimeoutTooLong);
    }
    let Some(start) = reading_at(readings, 0) else {
        return Ok(PollEnd::OutOfInput);
    };
    trace.push(PollEvent::Reading(start))?;
    let Some(mut poll) = DevicePoll::new(start, timeout, settings) else {
        return Ok(PollEnd::DeadlineOutOfRange);
    };
    let mut rounds: usize = 0;
    'rounds: loop {
        let Some(now) = reading_at(readings, rounds + 1) else {
            return Ok(PollEnd::OutOfInput);
        };
        trace.push(PollEvent::Reading(now))?;
        match poll.ready(now) {
            PollReady::Expired => return Ok(PollEnd::Expired),
            PollReady::Ask => {}
        }
        trace.push(PollEvent::Request)?;
        let Some(answer) = answer_at(answers, rounds) else {
            return Ok(PollEnd::OutOfInput);
        };
        trace.push(PollEvent::Answer(answer))?;
        match poll.answer(answer) {
            PollStep::Sleep(interval) => trace.push(PollEvent::Sleep(interval))?,
            PollStep::Limit => return Ok(PollEnd::Limit),
            PollStep::Done => return Ok(PollEnd::Done),
        }
        rounds += 1;
    }
}

// The clock reading at an index, if there is one.
fn reading_at(readings: &[Timestamp], index: usize) -> Option<Timestamp>
    ensures { result ≡ slice_get readings.now index }
{
    readings.get(index).copied()
}

// The answer at an index, if there is one.
fn answer_at(answers: &[PollAnswer], index: usize) -> Option<PollAnswer>
    ensures { result ≡ slice_get answers.now index }
{
    answers.get(index).copied()
}
