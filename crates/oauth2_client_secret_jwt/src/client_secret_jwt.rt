//! The source of assertions that a client signs with its secret.

ghost use Rattle.std.specs.Prelude.{◌≡◌, ◌≤◌, ◌<◌, ◌^◌, IfOk, IsErr, IsOkAnd, length};
ghost use Rattle.std.specs.Prelude.{string_bytes};
ghost use Rattle.oauth2_types.specs.Pkce.{base64url};
ghost use Rattle.oauth2_client_secret_jwt.specs.Signing.{jwt_of};
ghost use Rattle.oauth2_client_secret_jwt.specs.private.Steps.{Draws, ReadsSecond};

use crate::audience::Audience;
use crate::claims::{claims_text, second_since_1970};
use crate::clock::Clock;
use crate::error::{ClientSecretJwtError, SecretTooShort};
use crate::identifier_source::IdentifierSource;
use crate::signed_jwt::signed_jwt;
use base64::engine::general_purpose::URL_SAFE_NO_PAD;
use oauth2_client_assertions::AssertionSource;
use oauth2_types::{ClientId, ClientSecret};
use std::alloc::{AllocError, Global};
use std::marker::Model;

/// A source of JWTs that a client signs with its secret by HMAC with SHA-256. It holds the secret
/// and has no debug text.
///
/// Contracts see it as a `Signer`.
#[derive(Drop)]
pub struct ClientSecretJwt<K, R> {
    client_id: ClientId,
    client_secret: ClientSecret,
    audience: Audience,
    lifetime: u32,
    clock: K,
    generator: R,
}

impl<K, R> Model for ClientSecretJwt<K, R> {
    ghost use Rattle.std.specs.Prelude.{◌≤◌, length};
    ghost use Rattle.oauth2_client_secret_jwt.specs.Signing.{Signer};

    ghost Value = { Signer K R };

    ghost view = { λ s. record {
      client_id = s.client_id;
      client_secret = s.client_secret;
      audience = s.audience;
      lifetime = s.lifetime;
      clock = s.clock;
      generator = s.generator;
    } };

    ghost invariant = { λ s. 32 ≤ length s.client_secret };
}

impl<K, R> ClientSecretJwt<K, R> {
    /// A source for this client. Its assertions are for this audience, and each ends after 60
    /// seconds. The generator draws the identifier of each, so it has to be fit for secrets.
    pub fn new(
        client_id: ClientId,
        client_secret: ClientSecret,
        audience: Audience,
        clock: K,
        generator: R,
    ) -> Result<ClientSecretJwt<K, R>, SecretTooShort>
    where
        K: Drop,
        R: Drop,
        ensures long { 32 ≤ length client_secret → IsOkAnd result (λ s. s ≡ record {
          client_id = client_id;
          client_secret = client_secret;
          audience = audience;
          lifetime = 60;
          clock = clock;
          generator = generator;
        }) }
        ensures short { length client_secret < 32 → IsErr result }
    {
        if client_secret.secret().len() < 32 {
            return Err(SecretTooShort);
        }
        Ok(ClientSecretJwt {
            client_id,
            client_secret,
            audience,
            lifetime: 60,
            clock,
            generator,
        })
    }

    /// Sets after how many seconds each assertion ends.
    pub fn set_lifetime(self, seconds: u32) -> ClientSecretJwt<K, R>
        ensures { result ≡ record self { lifetime = seconds } }
    {
        let mut source = self;
        source.lifetime = seconds;
        source
    }

    // The assertion of this second, with the bytes that were drawn.
    fn jwt_of(&self, alloc: Global, second: u64, drawn: &[u8]) -> Result<String, AllocError>
        requires { second < 2 ^ 40 }
        ensures { IfOk result (λ text. string_bytes text ≡ jwt_of self.now second drawn.now) }
    {
        let identifier = base64url(alloc, drawn)?;
        let claims = claims_text(
            alloc,
            self.client_id.as_str(),
            self.audience.as_str(),
            identifier.as_str(),
            second,
            self.lifetime,
        )?;
        signed_jwt(
            alloc,
            self.client_secret.secret().as_bytes(),
            claims.as_bytes(),
        )
    }
}

impl<K: Clock, R: IdentifierSource> AssertionSource for ClientSecretJwt<K, R> {
    ghost use Rattle.oauth2_client_secret_jwt.specs.Signing.{Signs};

    type Error = ClientSecretJwtError<K::Error, R::Error>;

    ghost step = { Signs K.reads R.draws };

    fn assertion(
        &mut self,
        alloc: Global,
    ) -> Result<String, ClientSecretJwtError<K::Error, R::Error>> {
        let second = match read_second(&mut self.clock) {
            Ok(second) => second,
            Err(error) => return Err(error),
        };
        let drawn = match draw(&mut self.generator) {
            Ok(drawn) => drawn,
            Err(error) => return Err(error),
        };
        match self.jwt_of(alloc, second, &drawn) {
            Ok(text) => Ok(text),
            Err(_) => Err(ClientSecretJwtError::Memory),
        }
    }
}

// Reads the clock once.
fn read_second<K: Clock, E>(clock: &mut K) -> Result<u64, ClientSecretJwtError<K::Error, E>>
    ensures step { ReadsSecond K.reads clock.old result clock.new }
    ensures fits { IfOk result (λ second. second < 2 ^ 40) }
{
    match clock.now() {
        Ok(moment) => match second_since_1970(moment) {
            Some(second) => Ok(second),
            None => Err(ClientSecretJwtError::Before1970),
        },
        Err(error) => Err(ClientSecretJwtError::Clock(error)),
    }
}

// Draws an identifier once.
fn draw<R: IdentifierSource, E>(
    generator: &mut R,
) -> Result<[u8; 16], ClientSecretJwtError<E, R::Error>>
    ensures { Draws R.draws generator.old result generator.new }
{
    match generator.identifier() {
        Ok(drawn) => Ok(drawn),
        Err(error) => Err(ClientSecretJwtError::Generator(error)),
    }
}

#[tactic(auto, unfolding(oauth2_types::specs::Pkce::base64url))]
fn base64url(alloc: Global, bytes: &[u8]) -> Result<String, AllocError>
    ensures { IfOk result (λ text. string_bytes text ≡ base64url bytes.now) }
{
    URL_SAFE_NO_PAD.encode(alloc, bytes)
}
