//! A law of metadata with the two members.

ghost use Rattle.std.specs.Prelude.{◌≡◌, Ok};
ghost use Rattle.serde_json.specs.Data.{object};
ghost use Rattle.oauth2_json.specs.Puts.{put_all};
ghost use Rattle.oauth2_metadata.specs.Metadata.{Metadata, metadata_rows, metadata_writing};
ghost use Rattle.oauth2_pushed_login.specs.PushMembers.{PushMembers, push_fields, push_writing};

/// Metadata with these extra fields is always written, as all its members: they clash with none of
/// its own, and hold no float.
#[tactic(auto, using(crate::proofs::WrittenLaw::always_written))]
pub fn push_metadata_law()
    ensures { (m : Metadata PushMembers) → metadata_writing push_writing m
        ≡ Ok (object (put_all (metadata_rows m) (push_fields m.extra_fields))) }
{}
