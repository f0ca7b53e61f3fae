//! What holds of each question.

ghost use Rattle.std.specs.Prelude.{ℕ, List, Option, Result, ⊤};
ghost use Rattle.oauth2_wire.specs.Once.{AsksOnce};
ghost use Rattle.oauth2_wire.specs.Reply.{answer_of};
ghost use Rattle.oauth2_resource_server.specs.Laws.{AsksWhereNoAnswerIsGood, KeepsEachHistory};
ghost use Rattle.oauth2_resource_server.specs.Questions.{StepsOver};

use oauth2::{ErrorResponse, TokenIntrospectionResponse};
use oauth2_http1_connections::KeepAliveConnect;

/// A request is sent exactly where no answer is kept that may be used.
#[tactic(auto, using(crate::proofs::LawsHold::asks_where_unknown))]
pub fn asks_where_no_answer_is_good<C, TE, TIR>()
where
    C: KeepAliveConnect,
    TE: ErrorResponse,
    TIR: TokenIntrospectionResponse,
    ensures { AsksWhereNoAnswerIsGood (λ rule. AsksOnce TIR.meaning TE.meaning (StepsOver C.opens C.looks
        C.Stream.contents C.Stream.remaining C.Stream.reads C.Stream.writes C.Stream.flushes)
        (answer_of rule TIR.reading TE.reading)) TIR.active TIR.exp }
{}

/// Each idle connection carried exchanges one after the other since it was opened, all for its own
/// place, and each question leaves it so. A new client has no idle connection.
#[tactic(auto, using(crate::proofs::LawsHold::keeps_each_history))]
pub fn each_connection_keeps_its_history<C, TE, TIR>()
where
    C: KeepAliveConnect,
    TE: ErrorResponse,
    TIR: TokenIntrospectionResponse,
    ensures { KeepsEachHistory C.opens C.looks C.Stream.contents C.Stream.remaining
        C.Stream.reads C.Stream.writes C.Stream.flushes TIR.meaning TE.meaning
        (λ rule. answer_of rule TIR.reading TE.reading) TIR.active TIR.exp }
{}
