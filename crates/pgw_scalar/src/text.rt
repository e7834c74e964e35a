ghost use Rattle.std.specs.Prelude.{◌≡◌, Ok, true, string_bytes};
ghost use Rattle.std.specs.Cow.{cow_str_bytes};
ghost use Rattle.pgw_wire.specs.declared.is_null.IsNull.TheVariants.{No as no};
ghost use Rattle.pgw_meta.specs.Reading.{ReadsPiece, RefusesPiece};
ghost use Rattle.pgw_scalar.specs.Text.{IsText, text_bytes};
ghost use Rattle.pgw_scalar.specs.Refusals.{RefusesText};
ghost use Rattle.pgw_scalar.specs.Writing.{WrotePiece};

use crate::sql_types::{Citext, Text};
use pgw_meta::PgMetadataLookup;
use pgw_meta::deserialize::{self, FromSql, FromSqlRef, required};
use pgw_meta::serialize::{self, ToSql};
use pgw_wire::{IsNull, Output, PgValue, SqlError};
use std::alloc::Global;
use std::borrow::CowStr;

/// A text that is borrowed, to be written.
#[derive(Clone, Copy, Debug, PartialEq, Eq)]
pub struct TextRef<'a>(pub &'a str);

/// The field of a `text`: any number of bytes, which are UTF-8. The value borrows them.
impl<'a> FromSqlRef<'a, Text> for &'a str {
    ghost reads = { λ piece text. IsText piece text.now };

    ghost refuses = { RefusesText };

    /// The text. `BadUtf8` exactly where the bytes are not UTF-8. It takes no memory.
    fn from_sql_ref(value: PgValue<'a>) -> deserialize::Result<&'a str> {
        match str::from_utf8(value.as_bytes()) {
            Ok(text) => Ok(text),
            Err(_) => Err(SqlError::BadUtf8),
        }
    }
}

/// The field of a `text`: any number of bytes, which are UTF-8.
impl FromSql<Text> for String {
    ghost reads = { ReadsPiece (λ piece text. IsText piece (string_bytes text)) };

    ghost refuses = { RefusesPiece RefusesText };

    ghost MEMORY = { true };

    /// The text, in memory of its own. `BadUtf8` exactly where the bytes are not UTF-8.
    fn from_sql(alloc: Global, value: PgValue<'_>) -> deserialize::Result<String> {
        let text = <&str as FromSqlRef<'_, Text>>::from_sql_ref(value)?;
        Ok(text.to_string(alloc)?)
    }

    fn from_nullable_sql(alloc: Global, value: Option<PgValue<'_>>) -> deserialize::Result<String> {
        <String as FromSql<Text>>::from_sql(alloc, required(value)?)
    }
}

impl ToSql<Text> for String {
    ghost writes = { λ _ v answer bytes. (answer ≡ Ok no) × (bytes ≡ text_bytes (string_bytes v)) };

    /// Appends the bytes of the text.
    fn to_sql<L: PgMetadataLookup>(&self, out: &mut Output<'_, L>) -> serialize::Result
        ensures { WrotePiece out.old out.new (text_bytes (string_bytes self.now)) result }
    {
        out.write_all(self.as_bytes())?;
        Ok(IsNull::No)
    }
}

/// The field of a `text`, as for `String`.
impl FromSql<Text> for CowStr<'_> {
    ghost reads = { ReadsPiece (λ piece text. IsText piece (cow_str_bytes text)) };

    ghost refuses = { RefusesPiece RefusesText };

    ghost MEMORY = { true };

    /// The text, in memory of its own. `BadUtf8` exactly where the bytes are not UTF-8.
    fn from_sql(alloc: Global, value: PgValue<'_>) -> deserialize::Result<Self> {
        Ok(CowStr::Owned(<String as FromSql<Text>>::from_sql(alloc, value)?))
    }

    fn from_nullable_sql(alloc: Global, value: Option<PgValue<'_>>) -> deserialize::Result<Self> {
        <Self as FromSql<Text>>::from_sql(alloc, required(value)?)
    }
}

impl ToSql<Text> for CowStr<'_> {
    ghost writes = { λ _ v answer bytes. (answer ≡ Ok no) × (bytes ≡ text_bytes (cow_str_bytes v)) };

    /// Appends the bytes of the text, be it borrowed or owned.
    fn to_sql<L: PgMetadataLookup>(&self, out: &mut Output<'_, L>) -> serialize::Result {
        out.write_all(self.as_str().as_bytes())?;
        Ok(IsNull::No)
    }
}

impl ToSql<Text> for TextRef<'_> {
    ghost writes = { λ _ v answer bytes. (answer ≡ Ok no) × (bytes ≡ text_bytes v.0.now) };

    /// Appends the bytes of the text.
    fn to_sql<L: PgMetadataLookup>(&self, out: &mut Output<'_, L>) -> serialize::Result {
        out.write_all(self.0.as_bytes())?;
        Ok(IsNull::No)
    }
}

/// The field of a `citext`, which is that of a `text`.
impl FromSql<Citext> for String {
    ghost reads = { ReadsPiece (λ piece text. IsText piece (string_bytes text)) };

    ghost refuses = { RefusesPiece RefusesText };

    ghost MEMORY = { true };

    /// The text, in memory of its own. `BadUtf8` exactly where the bytes are not UTF-8.
    fn from_sql(alloc: Global, value: PgValue<'_>) -> deserialize::Result<String> {
        <String as FromSql<Text>>::from_sql(alloc, value)
    }

    fn from_nullable_sql(alloc: Global, value: Option<PgValue<'_>>) -> deserialize::Result<String> {
        <String as FromSql<Text>>::from_nullable_sql(alloc, value)
    }
}

impl ToSql<Citext> for String {
    ghost writes = { λ _ v answer bytes. (answer ≡ Ok no) × (bytes ≡ text_bytes (string_bytes v)) };

    /// Appends the bytes of the text.
    fn to_sql<L: PgMetadataLookup>(&self, out: &mut Output<'_, L>) -> serialize::Result
        ensures { WrotePiece out.old out.new (text_bytes (string_bytes self.now)) result }
    {
        <String as ToSql<Text>>::to_sql(self, out)
    }
}

/// The field of a `citext`, as for `String`.
impl FromSql<Citext> for CowStr<'_> {
    ghost reads = { ReadsPiece (λ piece text. IsText piece (cow_str_bytes text)) };

    ghost refuses = { RefusesPiece RefusesText };

    ghost MEMORY = { true };

    /// The text, in memory of its own. `BadUtf8` exactly where the bytes are not UTF-8.
    fn from_sql(alloc: Global, value: PgValue<'_>) -> deserialize::Result<Self> {
        <Self as FromSql<Text>>::from_sql(alloc, value)
    }

    fn from_nullable_sql(alloc: Global, value: Option<PgValue<'_>>) -> deserialize::Result<Self> {
        <Self as FromSql<Text>>::from_nullable_sql(alloc, value)
    }
}

impl ToSql<Citext> for CowStr<'_> {
    ghost writes = { λ _ v answer bytes. (answer ≡ Ok no) × (bytes ≡ text_bytes (cow_str_bytes v)) };

    /// Appends the bytes of the text, be it borrowed or owned.
    fn to_sql<L: PgMetadataLookup>(&self, out: &mut Output<'_, L>) -> serialize::Result {
        <Self as ToSql<Text>>::to_sql(self, out)
    }
}

impl ToSql<Citext> for TextRef<'_> {
    ghost writes = { λ _ v answer bytes. (answer ≡ Ok no) × (bytes ≡ text_bytes v.0.now) };

    /// Appends the bytes of the text.
    fn to_sql<L: PgMetadataLookup>(&self, out: &mut Output<'_, L>) -> serialize::Result {
        <Self as ToSql<Text>>::to_sql(self, out)
    }
}
