ghost use Rattle.std.specs.Prelude.{◌≡◌, ◌≤◌, Some, Err, IsTrue, IfOk};
ghost use Rattle.std.specs.Option.{option_map};
ghost use Rattle.pgw_wire.specs.Outside.{HasFailed};
ghost use Rattle.pgw_meta.specs.Known.{Known, LookupState, known};
ghost use Rattle.pgw_meta.specs.Keys.{key_of};
ghost use Rattle.pgw_meta.specs.Metadata.{oids_of};
ghost use Rattle.pgw_meta.specs.declared.metadata_lookup.LookupError.TheVariants.{Failed};

use crate::{InnerPgTypeMetadata, LookupError, PgMetadataCacheKey};
use std::alloc::Global;

/// Where the oids of types are found by keys, as in a server's catalog.
pub trait TypeCatalog {
    /// What is told of it, as of a lookup: the oids of each key that it knows, where it tells that, and whether it never
    /// fails; and how many of its calls failed, a count that stops at the largest `u64`.
    ghost state: { Self → LookupState };

    /// One that never fails counts no failed call.
    ghost quiet: { (catalog : Self) → IsTrue (state catalog).told.faultless → (state catalog).fault_count ≡ 0 };

    /// Finds the oids of a key. Ok has them exactly where the key is known, and else None. `Failed` comes only where the
    /// count of faults rises. No call changes what is known.
    fn find(
        &mut self,
        alloc: Global,
        key: &PgMetadataCacheKey<'_>,
    ) -> Result<Option<InnerPgTypeMetadata>, LookupError>
        ensures found { IfOk result (λ oids. (k : Known) → known (state self.old) ≡ Some k
            → option_map oids_of oids ≡ k (key_of key.now)) }
        ensures failed { result ≡ Err Failed → HasFailed (state self.old) (state self.new) }
        ensures told { (state self.new).told ≡ (state self.old).told }
        ensures faults { (state self.old).fault_count ≤ (state self.new).fault_count };

    /// How many searches failed so far.
    fn faults(&self) -> u64
        ensures { result ≡ (state self.now).fault_count };
}
