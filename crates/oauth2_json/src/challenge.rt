//! Code challenges as JSON objects (RFC 7636, section 4.3).

ghost use Rattle.std.specs.Prelude.{◌≡◌, Ok, IfOk};
ghost use Rattle.serde_json.specs.View.{view};
ghost use Rattle.oauth2_types.specs.Pkce.{Challenge};
ghost use Rattle.oauth2_json.specs.Challenge.{challenge_reading, challenge_writing};
ghost use Rattle.oauth2_json.specs.Writing.{WritesAs};

use crate::members;
use crate::read::{FromJson, ReadError};
use crate::write::{ToJson, WriteError};
use oauth2_types::PkceCodeChallenge;
use serde_json::{Map, Value};
use std::alloc::Global;

impl FromJson for PkceCodeChallenge {
    ghost Meaning = { Challenge };

    ghost meaning = { λ c. c };

    ghost reading = { challenge_reading };

    #[tactic(auto, using(crate::proofs::Objects::member_facts))]
    fn from_json(alloc: Global, value: Value) -> Result<PkceCodeChallenge, ReadError> {
        let mut members = members::of_object(alloc, value)?;
        let code_challenge = members::take(&mut members, "code_challenge");
        let method = members::take(&mut members, "code_challenge_method");
        let code_challenge = members::needed(alloc, "code_challenge", code_challenge)?;
        let method = members::needed(alloc, "code_challenge_method", method)?;
        Ok(PkceCodeChallenge::from_parts(code_challenge, method))
    }
}

// Writes a challenge as an object with two members.
fn challenge_value(alloc: Global, challenge: &PkceCodeChallenge) -> Result<Value, WriteError>
    ensures { WritesAs result (challenge_writing challenge.now) }
{
    let text = Value::try_from_str(alloc, challenge.as_str())?;
    let method = challenge.method().to_json(alloc)?;
    let mut members = Map::new(alloc);
    members::put_some(&mut members, alloc, "code_challenge_method", Some(method))?;
    members::put_some(&mut members, alloc, "code_challenge", Some(text))?;
    Ok(Value::Object(members))
}

impl ToJson for PkceCodeChallenge {
    ghost writing = { challenge_writing };

    fn to_json(&self, alloc: Global) -> Result<Value, WriteError>
        ensures written { WritesAs result (challenge_writing self.now) }
        ensures reads_back { IfOk result (λ v. challenge_reading (view v) ≡ Ok self.now) }
    {
        challenge_value(alloc, self)
    }
}
