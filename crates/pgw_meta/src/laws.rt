//! Laws of keys, for proofs that call these functions: what they ensure. They do nothing.

ghost use Rattle.std.specs.Prelude.{◌≡◌, ◌↔◌, IsTrue};
ghost use Rattle.pgw_meta.specs.Keys.{key_of};

use crate::PgMetadataCacheKey;
use std::hash::Hash;

/// Two keys are equal exactly where their texts are, be they borrowed or owned.
pub fn keys_are_equal_by_their_texts<'a>(a: &PgMetadataCacheKey<'a>, b: &PgMetadataCacheKey<'a>)
    ensures { IsTrue (⟦<PgMetadataCacheKey<'a> as PartialEq>⟧.eq a.now b.now) ↔ (key_of a.now ≡ key_of b.now) }
{}

/// Keys of equal texts hash alike.
pub fn keys_hash_by_their_texts<'a>(a: &PgMetadataCacheKey<'a>, b: &PgMetadataCacheKey<'a>)
    ensures { key_of a.now ≡ key_of b.now → ⟦<PgMetadataCacheKey<'a> as Hash>⟧.hash_input a.now
        ≡ ⟦<PgMetadataCacheKey<'a> as Hash>⟧.hash_input b.now }
{}
