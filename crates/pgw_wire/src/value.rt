ghost use Rattle.std.specs.Prelude.{◌≡◌, ◌<◌, ◌≤◌, ◌↔◌, length, slice_range, IfOk, IsErr, OnErr, Err};
ghost use Rattle.pgw_wire.specs.declared.sql_error.SqlError.TheVariants.{ShortValue as short_value};
ghost use Rattle.std.specs.declared.num.NonZeroU32.{NonZeroU32 as Oid};

use crate::SqlError;
use std::num::NonZeroU32;
use std::ops::Range;

/// What has the object identifier of a type.
pub trait TypeOidLookup {
    /// The type's object identifier.
    ghost type_oid: { Self → Oid };

    /// The type's object identifier.
    fn lookup(&self) -> NonZeroU32
        ensures { result ≡ type_oid self.now };
}

impl TypeOidLookup for NonZeroU32 {
    ghost type_oid = { λ oid. oid };

    fn lookup(&self) -> NonZeroU32 {
        *self
    }
}

/// The piece of a field that is not null, as bytes that are borrowed, and the object identifier of the field's type.
#[derive(Clone, Copy)]
pub struct PgValue<'a> {
    raw_value: &'a [u8],
    type_oid: NonZeroU32,
}

impl<'a> PgValue<'a> {
    /// A value of these bytes and this type.
    pub fn new(raw_value: &'a [u8], type_oid: NonZeroU32) -> PgValue<'a>
        ensures bytes { result.raw_value.now ≡ raw_value.now }
        ensures oid { result.type_oid ≡ type_oid }
    {
        PgValue {
            raw_value,
            type_oid,
        }
    }

    /// The bytes of the piece.
    pub fn as_bytes(&self) -> &'a [u8]
        ensures { result.now ≡ self.now.raw_value.now }
    {
        self.raw_value
    }

    /// The object identifier of the field's type.
    pub fn get_oid(&self) -> NonZeroU32
        ensures { result ≡ self.now.type_oid }
    {
        self.type_oid
    }

    /// The bytes from the place `range.start` to the one before `range.end`, as a value of the same type. `ShortValue`,
    /// with the number of bytes that are there and `range.end`, where that is above it.
    pub fn subslice(&self, range: Range<usize>) -> Result<PgValue<'a>, SqlError>
        requires { range.start ≤ range.end }
        ensures bytes { IfOk result (λ v. v.raw_value.now ≡ slice_range self.now.raw_value.now range.start range.end) }
        ensures oid { IfOk result (λ v. v.type_oid ≡ self.now.type_oid) }
        ensures short { IsErr result ↔ (length self.now.raw_value.now < range.end) }
        ensures err { OnErr result (result ≡ Err (short_value (length self.now.raw_value.now) range.end)) }
    {
        match self.raw_value.get(range.start..range.end) {
            Some(raw_value) => Ok(PgValue {
                raw_value,
                type_oid: self.type_oid,
            }),
            None => Err(SqlError::ShortValue {
                have: self.raw_value.len(),
                want: range.end,
            }),
        }
    }
}

impl TypeOidLookup for PgValue<'_> {
    ghost type_oid = { λ value. value.type_oid };

    fn lookup(&self) -> NonZeroU32 {
        self.type_oid
    }
}
