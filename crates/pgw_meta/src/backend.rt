ghost use Rattle.std.specs.Prelude.{◌≡◌, Ok, Err, IfOk};
ghost use Rattle.pgw_meta.specs.Keys.{key_of};
ghost use Rattle.pgw_meta.specs.Metadata.{failed_key, metadata_of, type_oid, array_type_oid, oids_or_key, oid_or_key};

use crate::PgMetadataCacheKey;
use pgw_wire::NoMemory;
use std::alloc::Global;
use std::error::Error;
use std::fmt::{self, Display, Formatter, Write};

/// PostgreSQL, which has the types and writes and reads their values.
#[derive(Clone, Copy, Debug, Default, PartialEq, Eq, Hash)]
pub struct Pg;

/// The oids of a type and of its arrays.
#[derive(Clone, Copy, Debug, PartialEq, Eq, Hash)]
pub struct InnerPgTypeMetadata {
    /// The oid of the type.
    pub oid: u32,
    /// The oid of the type of its arrays.
    pub array_oid: u32,
}

impl From<(u32, u32)> for InnerPgTypeMetadata {
    ghost from_gives = { λ oids metadata. (metadata.oid ≡ oids.0) × (metadata.array_oid ≡ oids.1) };

    fn from((oid, array_oid): (u32, u32)) -> InnerPgTypeMetadata {
        InnerPgTypeMetadata { oid, array_oid }
    }
}

/// No type of this key is known.
#[derive(Debug, PartialEq, Eq, Hash, Drop)]
pub struct FailedToLookupTypeError {
    key: PgMetadataCacheKey<'static>,
}

impl FailedToLookupTypeError {
    /// That the type of this key is not known. It takes no memory.
    pub fn new(cache_key: PgMetadataCacheKey<'static>) -> Self
        ensures { failed_key result ≡ key_of cache_key.entry }
    {
        FailedToLookupTypeError { key: cache_key }
    }

    /// The key that was looked up.
    pub fn key(&self) -> &PgMetadataCacheKey<'static>
        ensures { key_of result.now ≡ failed_key self.now }
    {
        &self.key
    }
}

impl Display for FailedToLookupTypeError {
    fn fmt<W: Write>(&self, f: &mut Formatter<W>) -> fmt::Result {
        match self.key.schema() {
            Some(schema) => write!(
                f,
                "Failed to find a type oid for `{}`.`{}`",
                schema,
                self.key.type_name()
            ),
            None => write!(
                f,
                "Failed to find a type oid for `{}`",
                self.key.type_name()
            ),
        }
    }
}

impl Error for FailedToLookupTypeError {}

/// The oids of a type, or that they were looked up and are not known.
#[derive(Debug, PartialEq, Eq, Hash, Drop)]
pub struct PgTypeMetadata {
    oids: Result<InnerPgTypeMetadata, FailedToLookupTypeError>,
}

impl PgTypeMetadata {
    /// These oids, of a type and of its arrays. It takes no memory.
    pub fn new(type_oid: u32, array_oid: u32) -> Self
        ensures { metadata_of result ≡ Ok (record { oid = type_oid; array_oid = array_oid }) }
    {
        PgTypeMetadata {
            oids: Ok(InnerPgTypeMetadata {
                oid: type_oid,
                array_oid,
            }),
        }
    }

    /// These oids, of a type and of its arrays, or the key that is not known. It takes no memory.
    pub fn from_result(oids: Result<(u32, u32), FailedToLookupTypeError>) -> Self
        ensures { metadata_of result ≡ oids_or_key oids }
    {
        PgTypeMetadata {
            oids: match oids {
                Ok((oid, array_oid)) => Ok(InnerPgTypeMetadata { oid, array_oid }),
                Err(error) => Err(error),
            },
        }
    }

    /// That the type of this key is not known. Memory is taken for the texts that the key borrows.
    pub(crate) fn unknown(
        alloc: Global,
        key: PgMetadataCacheKey<'_>,
    ) -> Result<PgTypeMetadata, NoMemory>
        ensures { IfOk result (λ metadata. metadata_of metadata ≡ Err (key_of key.entry)) }
    {
        let error = FailedToLookupTypeError::new(key.into_owned(alloc)?);
        Ok(PgTypeMetadata { oids: Err(error) })
    }

    /// The oid of the type, or the key that is not known. It takes no memory.
    pub fn oid(&self) -> Result<u32, &FailedToLookupTypeError>
        ensures { oid_or_key result ≡ type_oid self.now }
    {
        match &self.oids {
            Ok(oids) => Ok(oids.oid),
            Err(error) => Err(error),
        }
    }

    /// The oid of the type of its arrays, or the key that is not known. It takes no memory.
    pub fn array_oid(&self) -> Result<u32, &FailedToLookupTypeError>
        ensures { oid_or_key result ≡ array_type_oid self.now }
    {
        match &self.oids {
            Ok(oids) => Ok(oids.array_oid),
            Err(error) => Err(error),
        }
    }

    /// Both oids, of the type and of its arrays, or the error with the key that is not known. It takes no memory.
    pub fn into_oids(self) -> Result<(u32, u32), FailedToLookupTypeError>
        ensures { oids_or_key result ≡ metadata_of self }
    {
        match self.oids {
            Ok(oids) => Ok((oids.oid, oids.array_oid)),
            Err(error) => Err(error),
        }
    }
}
