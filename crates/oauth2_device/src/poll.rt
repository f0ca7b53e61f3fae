//! Polling in a world that has a clock, sends requests and sleeps (RFC 8628, section 3.5).

ghost use Rattle.std.specs.Prelude.{◌≡◌, ◌<◌, List, Err, IfOk, IfSome};
ghost use Rattle.std.specs.Duration.{as_nanos};
ghost use Rattle.http_uri.specs.Uri.{SpellsNone};
ghost use Rattle.url.specs.Parts.{serialize};
ghost use Rattle.oauth2_device.specs.Events.{PollCall, Leads, EachRequest};
ghost use Rattle.oauth2_device.specs.Poll.{IsDeviceRequest, Polls, device_answer, timeout_of};
ghost use Rattle.oauth2_device.specs.private.Round.{IsJudged, IsTurn};

use crate::device_access_token_request::DeviceAccessTokenRequest;
use crate::poll_world::PollWorld;
use crate::verdict::{PollError, Verdict, expired_token_error, judge_answer};
use oauth2_codes::DeviceCodeErrorResponse;
use oauth2_poll::{DevicePoll, PollAnswer, PollReady, PollSettings, PollStep};
use oauth2_replies::TokenResponse;
use oauth2_wire::{
    HttpRequest, HttpResponse, RequestFault, RequestTokenError, copy_request,
    endpoint_response_with,
};
use std::alloc::Global;
use std::time::Duration;

impl<'a, TR: TokenResponse, EF, T> DeviceAccessTokenRequest<'a, TR, EF, T> {
    /// Polls for the token (RFC 8628, section 3.5), in a world that has a clock, sends requests
    /// and sleeps: for `timeout`, or the lifetime of the device code if `timeout` is `None`, with
    /// at most `max_polls` requests.
    ///
    /// A token, or an error other than `authorization_pending` and `slow_down`, ends the poll; a
    /// failed call does not. If the clock is past the deadline, the error is `ServerResponse` with
    /// the code `ExpiredToken`. If `max_polls` requests were sent without a decision, it is
    /// `Other`, "polling limit reached". If the timeout cannot be used, it is `Other`, "failed to
    /// convert the timeout" or "failed to calculate timeout".
    pub fn poll_with<W: PollWorld>(
        self,
        alloc: Global,
        world: &mut W,
        timeout: Option<Duration>,
        max_polls: u64,
    ) -> Result<TR, RequestTokenError<W::Error, DeviceCodeErrorResponse>>
    where
        T: Drop,
        requires polls { 0 < max_polls }
        requires ready { W.is_ready world.old }
        ensures poll { (e : List (PollCall W.Error))
            × Leads W.reads W.sends W.sleeps world.old e world.new
            × Polls TR.meaning TR.reading self.entry.request
            (timeout_of self.entry.request timeout) max_polls e result }
        ensures ready { W.is_ready world.new }
    {
        let timeout = timeout.unwrap_or(self.response.expires_in());
        self.follow(alloc, world, timeout, max_polls)
    }

    // Runs the whole poll.
    fn follow<W: PollWorld>(
        &self,
        alloc: Global,
        world: &mut W,
        timeout: Duration,
        max_polls: u64,
    ) -> Result<TR, PollError<W::Error>>
        requires polls { 0 < max_polls }
        requires ready { W.is_ready world.old }
        ensures poll { (e : List (PollCall W.Error))
            × Leads W.reads W.sends W.sleeps world.old e world.new
            × Polls TR.meaning TR.reading self.now.request (as_nanos timeout) max_polls e result }
        ensures ready { W.is_ready world.new }
    {
        let settings = self.settings(max_polls);
        if !DevicePoll::timeout_fits(&timeout) {
            return Err(RequestTokenError::with_text(alloc, "failed to convert the timeout", false));
        }
        let start = world.now();
        let Some(mut poll) = DevicePoll::new(start, timeout, settings) else {
            return Err(RequestTokenError::with_text(alloc, "failed to calculate timeout", false));
        };
        let mut kept = None;
        let mut sent = false;
        'rounds: loop {
            if let Some(result) = self.round(alloc, world, &mut poll, &mut kept, sent) {
                return result;
            }
            sent = true;
        }
    }

    // The settings of the poll: its interval, its cap and its limit of requests.
    fn settings(&self, max_polls: u64) -> PollSettings
        ensures interval { as_nanos result.interval ≡ self.now.request.interval }
        ensures cap { as_nanos result.cap ≡ self.now.request.max_backoff_interval }
        ensures polls { result.max_polls ≡ max_polls }
    {
        PollSettings {
            interval: self.response.interval(),
            cap: self.max_backoff_interval,
            max_polls,
        }
    }

    // Runs one round. Returns the result of the poll, or `None` if the poll goes on. `kept` is the
    // request once it is built; `sent` says whether an earlier round sent one.
    fn round<W: PollWorld>(
        &self,
        alloc: Global,
        world: &mut W,
        poll: &mut DevicePoll,
        kept: &mut Option<HttpRequest>,
        sent: bool,
    ) -> Option<Result<TR, PollError<W::Error>>>
        requires polls { 0 < poll.old.polls_left }
        requires ready { W.is_ready world.old }
        requires kept { IfSome kept.old (IsDeviceRequest self.now.request) }
        ensures turn { (e : List (PollCall W.Error))
            × Leads W.reads W.sends W.sleeps world.old e world.new
            × EachRequest (IsDeviceRequest self.now.request) e
            × IsTurn TR.meaning (device_answer self.now.request.base.reply_rule TR.reading)
            (SpellsNone (serialize self.now.request.token_url.url))
            poll.old sent e result poll.new }
        ensures ready { W.is_ready world.new }
        ensures kept { IfSome kept.new (IsDeviceRequest self.now.request) }
    {
        let now = world.now();
        match poll.ready(now) {
            PollReady::Expired => return Some(Err(expired_token_error(alloc, sent))),
            PollReady::Ask => {}
        }
        let request = match self.next_request(alloc, kept) {
            Ok(request) => request,
            Err(fault) => return Some(Err(RequestTokenError::unprepared(alloc, fault, sent))),
        };
        let reply = world.send(request);
        match self.judge(alloc, reply) {
            Verdict::Decided(result) => Some(result),
            Verdict::Again(answer) => match poll.answer(answer) {
                PollStep::Sleep(duration) => {
                    world.sleep(duration);
                    None
                }
                // `Done` follows only a deciding answer, and `Again` never has one.
                PollStep::Limit | PollStep::Done => {
                    Some(Err(RequestTokenError::with_text(alloc, "polling limit reached", true)))
                }
            },
        }
    }

    // The request of a round. The first round builds it and keeps it; each request that is sent is
    // a copy of it.
    fn next_request(
        &self,
        alloc: Global,
        kept: &mut Option<HttpRequest>,
    ) -> Result<HttpRequest, RequestFault>
        requires { IfSome kept.old (IsDeviceRequest self.now.request) }
        ensures ok { IfOk result (IsDeviceRequest self.now.request) }
        ensures not_http { result ≡ Err RequestFault.NotHttp
            → SpellsNone (serialize self.now.request.token_url.url) }
        ensures kept { IfSome kept.new (IsDeviceRequest self.now.request) }
    {
        if let Some(request) = &*kept {
            return Ok(copy_request(alloc, request)?);
        }
        let request = self.prepare_request(alloc)?;
        let copy = copy_request(alloc, &request)?;
        *kept = Some(request);
        Ok(copy)
    }

    // What the result of a request means to the poll.
    fn judge<RE: Drop>(&self, alloc: Global, reply: Result<HttpResponse, RE>) -> Verdict<TR, RE>
        ensures { IsJudged TR.meaning
            (device_answer self.now.request.base.reply_rule TR.reading) reply result }
    {
        match reply {
            Ok(reply) => judge_answer(endpoint_response_with(alloc, self.reply_rule(), reply)),
            Err(_) => Verdict::Again(PollAnswer::Failed),
        }
    }
}
