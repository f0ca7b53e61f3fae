//! The HTTP client, which the caller provides.

use crate::request::HttpRequest;
use http::Response;
use std::marker::{Model, PhantomData};

/// The reply that an HTTP client returns.
pub type HttpResponse = Response<Vec<u8>>;

/// A client that sends one request and waits for its reply.
///
/// If your client may always be called, do not define `is_ready`: functions that call it then need
/// no precondition. A function that is generic over such clients takes an `AlwaysReady`. A function
/// that takes any client declares `requires { C.is_ready client.old }`, and also `ensures {
/// C.is_ready client.new }` if its callers may call again. If it converts errors to `anyhow` by
/// `?`, it declares `where C::Error: fmt::Debug`.
pub trait SyncHttpClient {
    ghost use Rattle.std.specs.Prelude.{ℕ, Vec, Result, ⊤};
    ghost use Rattle.std.specs.declared.alloc.Global.{Global};
    ghost use Rattle.http.specs.declared.request.Request.{Request};
    ghost use Rattle.http.specs.declared.response.Response.{Response};

    /// Why a request got no reply.
    type Error: Drop;

    // The client may be called in this state, with any request.
    ghost is_ready: { Self → Type 0 } = { λ _. ⊤ };

    // What a call may do, as a relation: the state before, the request, the result and the state
    // after.
    ghost step: { Self → Request (Vec ℕ Global) → Result (Response (Vec ℕ Global)) Self.Error
        → Self → Type 0 } = { λ _ _ _ _. ⊤ };

    /// Sends one request and returns its reply.
    fn call(&mut self, request: HttpRequest) -> Result<HttpResponse, Self::Error>
        requires { is_ready self.old }
        ensures step { step self.old request result self.new }
        ensures ready { is_ready self.new };
}

/// A client that may be called in every state. A function that is generic over it needs no
/// precondition. For a client that does not define `is_ready`, one line is enough: `impl
/// AlwaysReady for MyClient { ghost always_ready = { λ _. tt }; }`.
pub trait AlwaysReady: SyncHttpClient {
    // The client may be called in this state.
    ghost always_ready: { (c : Self) → Self.is_ready c };
}

/// A closure as an HTTP client. Contracts see the closure.
#[derive(Drop)]
pub struct FnClient<F, E> {
    f: F,
    error: PhantomData<E>,
}

impl<F, E> Model for FnClient<F, E> {
    ghost Value = { F };

    ghost view = { λ c. c.f };
}

impl<F, E> FnClient<F, E>
where
    F: FnMut(HttpRequest) -> Result<HttpResponse, E>,
{
    ghost use Rattle.std.specs.Prelude.{◌≡◌};

    /// The client that calls the closure.
    pub fn new(f: F) -> FnClient<F, E>
        requires { F.IsAlwaysCallable f }
        ensures { result ≡ f }
    {
        FnClient {
            f,
            error: PhantomData,
        }
    }

    /// The closure.
    pub fn into_inner(self) -> F
        ensures { result ≡ self }
    {
        let FnClient { f, error: _ } = self;
        f
    }
}

impl<F, E: Drop> SyncHttpClient for FnClient<F, E>
where
    F: FnMut(HttpRequest) -> Result<HttpResponse, E>,
{
    type Error = E;

    ghost is_ready = { λ f. F.IsAlwaysCallable f };

    ghost step = { λ f request answer g. F.step f request answer g };

    fn call(&mut self, request: HttpRequest) -> Result<HttpResponse, E> {
        (self.f)(request)
    }
}
