ghost use Rattle.std.specs.Prelude.{◌≡◌, ◌≤◌, ◌++◌, ℕ, List, Some, Err};
ghost use Rattle.pgw_wire.specs.Outside.{HasFailed};
ghost use Rattle.pgw_wire.specs.Output.{IsSameOutput, StartsWithin};
ghost use Rattle.pgw_meta.specs.Known.{Known, known};
ghost use Rattle.pgw_meta.specs.Writing.{Writes, Wrote};
ghost use Rattle.pgw_meta.specs.declared.serialize.WriteError.TheVariants.{LookupFailed as lookup_failed};

use crate::{FailedToLookupTypeError, LookupError, PgMetadataLookup};
use pgw_wire::NoMemory as NoMemoryLeft;
pub use pgw_wire::{IsNull, Output};
use thiserror::Error;

/// Why a value was not written.
#[derive(Debug, PartialEq, Eq, Drop, Error)]
pub enum WriteError {
    /// Number 1 of these errors: the oids of a type are needed, and its key is not known.
    #[error(transparent)]
    UnknownType(FailedToLookupTypeError),
    /// Number 2 of these errors: the lookup failed.
    #[error("the lookup failed")]
    LookupFailed,
    /// Number 3 of these errors: more digits than the 65535 that a numeric may have, or more elements or bytes of a piece
    /// than 2147483647.
    #[error("too many digits, elements or bytes")]
    TooMany,
    /// Number 4 of these errors: a number in a JSON value fits neither 64 bits with a sign nor 64 bits without one.
    #[error("JSON with a float")]
    JsonFloat,
    /// Number 5 of these errors: an error of a user's own codec, which chose the number that it holds.
    #[error("custom error {0}")]
    Custom(u32),
    /// Number 6 of these errors: memory was asked for and refused.
    #[error("out of memory")]
    NoMemory,
    /// Number 7 of these errors: the value lies outside of those that a field of its type has.
    #[error("value out of range")]
    OutOfRange,
}

impl From<NoMemoryLeft> for WriteError {
    ghost use Rattle.pgw_meta.specs.declared.serialize.WriteError.TheVariants.{NoMemory as no_memory};

    ghost from_gives = { λ _ e. e ≡ no_memory };

    fn from(_: NoMemoryLeft) -> WriteError {
        WriteError::NoMemory
    }
}

impl From<LookupError> for WriteError {
    ghost use Rattle.pgw_meta.specs.Writing.{error_of};

    ghost from_gives = { λ e w. w ≡ error_of e };

    fn from(error: LookupError) -> WriteError {
        match error {
            LookupError::Failed => WriteError::LookupFailed,
            LookupError::NoMemory => WriteError::NoMemory,
        }
    }
}

/// What writing a value answers.
pub type Result = std::result::Result<IsNull, WriteError>;

/// A value that can be written into a field of the type of the marker `A`.
pub trait ToSql<A> {
    /// What it is written as, and each implementation states that: under what a lookup knows, the value is answered so,
    /// with these bytes appended. At `Yes` the field is null, at `No` the bytes are its piece.
    ghost writes: { Writes Self };

    /// Appends the bytes of the value. The start of the output has to lie in its buffer.
    ///
    /// The bytes that stood before the call stand there behind it. Those that a call appended before it was refused are for
    /// the caller to take back. `LookupFailed` comes only where the lookup's count of faults rises. No call changes what is
    /// known.
    fn to_sql<L: PgMetadataLookup>(&self, out: &mut Output<'_, L>) -> Result
        requires { StartsWithin out.old }
        ensures wrote { (bytes : List ℕ) × (out.new.out.now.bytes ≡ out.old.out.now.bytes ++ bytes)
            × ((k : Known) → known (L.state out.old.lookup.now) ≡ Some k → Wrote writes k self.now bytes result) }
        ensures failed { result ≡ Err lookup_failed → HasFailed (L.state out.old.lookup.now) (L.state out.new.lookup.now) }
        ensures same { IsSameOutput out.old out.new }
        ensures told { (L.state out.new.lookup.now).told ≡ (L.state out.old.lookup.now).told }
        ensures faults { (L.state out.old.lookup.now).fault_count ≤ (L.state out.new.lookup.now).fault_count };
}

impl<A, T: ToSql<A>> ToSql<A> for &T {
    ghost writes = { λ k v. T.writes k v.now };

    fn to_sql<L: PgMetadataLookup>(&self, out: &mut Output<'_, L>) -> Result {
        (**self).to_sql(out)
    }
}
