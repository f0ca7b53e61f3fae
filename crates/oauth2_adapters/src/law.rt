//! Laws of adapters and of their order.

ghost use Rattle.std.specs.Prelude.{ℕ, List, Bool};
ghost use Rattle.oauth2_adapters.specs.CommasInScopes.{spaced_scope};
ghost use Rattle.oauth2_adapters.specs.ErrorsAtStatus200.{error_at_400};
ghost use Rattle.oauth2_adapters.specs.FormBodies.{form_as_json, is_form};
ghost use Rattle.oauth2_adapters.specs.Laws.{LeavesAlone, Commute, CommuteIfOneIsFor};
ghost use Rattle.oauth2_adapters.specs.Laws.{is_error_at_200, has_changes, has_listed_type};
ghost use Rattle.oauth2_adapters.specs.NumbersAsTexts.{number_under};
ghost use Rattle.oauth2_adapters.specs.OtherMediaTypes.{as_json};
ghost use Rattle.oauth2_adapters.specs.Reply.{Reply};
ghost use Rattle.oauth2_adapters.specs.Rewriting.{Change, with_changes};

/// An adapter does not change a reply that it is not for.
pub fn each_leaves_other_replies_alone()
    ensures errors { LeavesAlone error_at_400 is_error_at_200 }
    ensures scopes { LeavesAlone (with_changes spaced_scope) (has_changes spaced_scope) }
    ensures numbers { (names : List (List ℕ)) →
        LeavesAlone (with_changes (number_under names)) (has_changes (number_under names)) }
    ensures media_types { (types : List (List ℕ)) →
        LeavesAlone (as_json types) (has_listed_type types) }
    ensures forms { LeavesAlone form_as_json is_form }
{}

/// The order of two adapters does not matter for a reply that only one of them is for. The order of
/// `OtherMediaTypes` and an adapter that changes JSON members or the status never matters.
pub fn adapters_commute()
    ensures one { (first second : Reply → Reply) (is_for : Reply → Bool) →
        LeavesAlone second is_for → CommuteIfOneIsFor first second is_for }
    ensures errors { (types : List (List ℕ)) → Commute (as_json types) error_at_400 }
    ensures changes { (types : List (List ℕ)) (change : Change) →
        Commute (as_json types) (with_changes change) }
{}
