//! What stands between PostgreSQL's types and the values of a program: the types, what columns of them may be, and the
//! oids that types are looked up by.
#![tactic(auto)]

mod backend;
mod cache;
mod cached_lookup;
mod catalog;
pub mod deserialize;
mod dummy;
mod found_oids;
mod key;
pub mod laws;
mod memory_catalog;
mod metadata_lookup;
mod name_text;
mod needs;
mod oids;
mod schema;
pub mod serialize;
pub mod sql_types;
mod types;

pub use backend::{FailedToLookupTypeError, InnerPgTypeMetadata, Pg, PgTypeMetadata};
pub use cache::{GetPgMetadataCache, PgMetadataCache};
pub use cached_lookup::CachedLookup;
pub use catalog::TypeCatalog;
pub use deserialize::{Defaultable, FromSql, FromSqlRef};
pub use dummy::Dummy;
pub use found_oids::{Found, FoundOids};
pub use key::{PgMetadataCacheKey, TypeKey};
pub use memory_catalog::{CatalogError, MemoryCatalog};
pub use metadata_lookup::{LookupError, PgMetadataLookup};
pub use name_text::NameText;
pub use needs::{Need, NeedList};
pub use oids::{array_oid_of, oid_of};
pub use schema::{Schema, SchemaError};
pub use serialize::{ToSql, WriteError};
pub use sql_types::{HasSqlType, NotNull, RangeElement, SingleValue, SqlType};
pub use types::{PgType, TypeList};
