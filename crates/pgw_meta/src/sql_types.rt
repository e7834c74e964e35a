ghost use Rattle.std.specs.Prelude.{◌≡◌, ◌≤◌, ℕ, Some, Err, IfOk};
ghost use Rattle.pgw_wire.specs.Outside.{HasFailed};
ghost use Rattle.pgw_meta.specs.Known.{Known, known};
ghost use Rattle.pgw_meta.specs.Metadata.{metadata_of};
ghost use Rattle.pgw_meta.specs.Naming.{Naming};
ghost use Rattle.pgw_meta.specs.declared.metadata_lookup.LookupError.TheVariants.{Failed};

use crate::{LookupError, PgMetadataLookup, PgTypeMetadata};
use std::alloc::Global;

/// A marker that stands for a type of PostgreSQL's.
pub trait SqlType {}

/// A marker of a type that allows no null: every marker but that of nullable types.
pub trait NotNull: SqlType {}

/// A marker of a type whose value stands in one field of a row.
pub trait SingleValue: SqlType {}

/// A marker of a type that PostgreSQL has ranges over.
pub trait RangeElement: NotNull {
    ghost RANGE_OID: { ℕ };

    /// The oid of the type of its ranges.
    const RANGE_OID: u32;

    ghost RANGE_ARRAY_OID: { ℕ };

    /// The oid of the type of arrays of its ranges.
    const RANGE_ARRAY_OID: u32;

    ghost MULTIRANGE_OID: { ℕ };

    /// The oid of the type of its multiranges.
    const MULTIRANGE_OID: u32;

    ghost MULTIRANGE_ARRAY_OID: { ℕ };

    /// The oid of the type of arrays of its multiranges.
    const MULTIRANGE_ARRAY_OID: u32;
}

/// A backend that has the type of the marker `A`.
pub trait HasSqlType<A> {
    /// The oids of the type under what is known, or the key that it is looked up by, where that is not known.
    ghost names: { Naming };

    /// The oids of the type and of its arrays, or the key that it is looked up by and that is not known. `Failed` comes
    /// only where the lookup's count of faults rises. No call changes what is known.
    fn metadata<L: PgMetadataLookup>(
        alloc: Global,
        lookup: &mut L,
    ) -> Result<PgTypeMetadata, LookupError>
        ensures named { IfOk result (λ metadata. (k : Known) → known (L.state lookup.old) ≡ Some k
            → metadata_of metadata ≡ names.oids k) }
        ensures failed { result ≡ Err Failed → HasFailed (L.state lookup.old) (L.state lookup.new) }
        ensures told { (L.state lookup.new).told ≡ (L.state lookup.old).told }
        ensures faults { (L.state lookup.old).fault_count ≤ (L.state lookup.new).fault_count };
}
