//! Adapters: changes to replies.

use oauth2_wire::HttpResponse;
use std::alloc::{AllocError, Global};

/// A change to the replies of a client. Replies of other kinds stay as they are.
pub trait ReplyAdapter {
    ghost use Rattle.std.specs.Prelude.{◌≡◌, Bool, IsTrue, IfOk, OnErr};
    ghost use Rattle.oauth2_adapters.specs.Reply.{Reply, reply_values};

    /// The reply that a reply is turned into.
    ghost adapted: { Self → Reply → Reply };

    /// Whether adapting this reply needs memory.
    ghost needs_memory: { Self → Reply → Bool };

    /// Returns the adapted reply.
    fn adapt(&self, alloc: Global, reply: HttpResponse) -> Result<HttpResponse, AllocError>
        ensures reply { IfOk result (λ new.
            reply_values new ≡ adapted self.now (reply_values reply)) }
        ensures memory { OnErr result (IsTrue (needs_memory self.now (reply_values reply))) };
}
