//! Laws of pushed authorization requests.

ghost use Rattle.std.specs.Prelude.{◌≡◌, ◌++◌, List, None, Some, ℕ};
ghost use Rattle.url.specs.Parts.{Parts};
ghost use Rattle.oauth2_form.specs.Pairs.{Pair};
ghost use Rattle.oauth2_form.specs.Query.{ExtendsQuery, query_form};
ghost use Rattle.oauth2_wire.specs.Request.{IsRequestOf, RequestView};
ghost use Rattle.oauth2_pushed_requests.specs.Parameters.{added_pairs, names_fault};
ghost use Rattle.oauth2_pushed_requests.specs.Pushed.{
  IsPushOf,
  PushedRequest,
  pushed_configuration,
};

/// What a URL appends to its endpoint's query is what it adds (`added`), and what a URL adds
/// follows its endpoint's query (`whole`).
#[tactic(auto, using(crate::proofs::PushLaws::additions))]
pub fn added_pairs_laws()
    ensures added { (endpoint url : Parts) (pairs : List Pair) → ExtendsQuery endpoint url pairs
        → added_pairs endpoint url ≡ Some pairs }
    ensures whole { (endpoint url : Parts) (pairs : List Pair)
        → added_pairs endpoint url ≡ Some pairs
        → query_form url ≡ query_form endpoint ++ pairs }
{}

/// From a push whose parameters have no fault, a server that does nothing but decode reads exactly
/// these parameters and the client's credentials.
pub fn push_law()
    ensures { (r : PushedRequest) (url : List ℕ) (v : RequestView)
        → names_fault r.client.client_id r.pairs ≡ None
        → IsRequestOf (pushed_configuration r) url v → IsPushOf r v }
{}
