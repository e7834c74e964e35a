ghost use Rattle.std.specs.Prelude.{◌≡◌, ◌≤◌, ℕ, Some, Err, IsTrue, IfOk};
ghost use Rattle.pgw_wire.specs.Outside.{HasFailed};
ghost use Rattle.pgw_meta.specs.Known.{Key, Known, LookupState, known};
ghost use Rattle.pgw_meta.specs.Keys.{text_of};
ghost use Rattle.pgw_meta.specs.Metadata.{metadata_of, found};
ghost use Rattle.pgw_meta.specs.declared.metadata_lookup.LookupError.TheVariants.{Failed};

use crate::PgTypeMetadata;
use pgw_wire::{Failed as CallFailed, NoMemory as NoMemoryLeft};
use std::alloc::Global;
use thiserror::Error;

/// Why a type was not looked up.
#[derive(Clone, Copy, Debug, PartialEq, Eq, Error)]
pub enum LookupError {
    /// The lookup failed. Its count of faults says so too.
    #[error("the lookup failed")]
    Failed,
    /// Memory was asked for and refused.
    #[error("out of memory")]
    NoMemory,
}

impl From<NoMemoryLeft> for LookupError {
    ghost use Rattle.std.specs.Prelude.{◌≡◌};
    ghost use Rattle.pgw_meta.specs.declared.metadata_lookup.LookupError.TheVariants.{NoMemory};

    ghost from_gives = { λ _ error. error ≡ NoMemory };

    fn from(_: NoMemoryLeft) -> LookupError {
        LookupError::NoMemory
    }
}

impl From<CallFailed> for LookupError {
    ghost use Rattle.std.specs.Prelude.{◌≡◌};
    ghost use Rattle.pgw_meta.specs.declared.metadata_lookup.LookupError.TheVariants.{Failed};

    ghost from_gives = { λ _ error. error ≡ Failed };

    fn from(_: CallFailed) -> LookupError {
        LookupError::Failed
    }
}

/// Where the oids of types are looked up by the types' names.
pub trait PgMetadataLookup {
    /// What is told of it: the oids of each key that it knows, where it tells that, and whether it never fails; and how
    /// many of its calls failed, a count that stops at the largest `u64`.
    ghost state: { Self → LookupState };

    /// One that never fails counts no failed call.
    ghost quiet: { (lookup : Self) → IsTrue (state lookup).told.faultless → (state lookup).fault_count ≡ 0 };

    /// Looks up the oids of the type of this name, in this schema or in none that is said. Ok has the oids exactly where the
    /// key is known, and else the key itself. `Failed` comes only where the count of faults rises. No call changes what is
    /// known.
    fn lookup_type(
        &mut self,
        alloc: Global,
        type_name: &str,
        schema: Option<&str>,
    ) -> Result<PgTypeMetadata, LookupError>
        ensures found { IfOk result (λ metadata. (k : Known) → known (state self.old) ≡ Some k
            → metadata_of metadata ≡ found k (record { schema = text_of schema.entry; name = type_name.now })) }
        ensures failed { result ≡ Err Failed → HasFailed (state self.old) (state self.new) }
        ensures told { (state self.new).told ≡ (state self.old).told }
        ensures faults { (state self.old).fault_count ≤ (state self.new).fault_count };

    /// How many lookups failed so far.
    fn faults(&self) -> u64
        ensures { result ≡ (state self.now).fault_count };
}
