ghost use Rattle.std.specs.Prelude.{◌≡◌, List, [], Some, Ok, OnOk, OnErr, if◌then◌else◌};
ghost use Rattle.std.specs.Option.{option_map};
ghost use Rattle.std.specs.Borrow.{Lends, sem};
ghost use Rattle.pgw_meta.specs.Known.{Key, Oids};
ghost use Rattle.pgw_meta.specs.Keys.{key_of};
ghost use Rattle.pgw_meta.specs.Metadata.{metadata_of, oids_of};
ghost use Rattle.pgw_meta.specs.Needs.{is_same_key};
ghost use Rattle.pgw_meta.specs.Cached.{cached};
ghost use Rattle.pgw_meta.specs.contracts.cache.PgMetadataCache.{the_row};

use crate::{InnerPgTypeMetadata, PgMetadataCacheKey, PgTypeMetadata};
use pgw_wire::NoMemory;
use std::alloc::Global;
use std::collections::HashMap;
use std::marker::Model;

/// The oids of types that were looked up, by their keys. Contracts see the list of its entries, in an order that is left
/// open, and the finite map that they are.
#[derive(Drop)]
pub struct PgMetadataCache {
    alloc: Global,
    entries: HashMap<PgMetadataCacheKey<'static>, InnerPgTypeMetadata>,
}

impl Model for PgMetadataCache {
    ghost use Rattle.std.specs.Prelude.{List};
    ghost use Rattle.pgw_meta.specs.Known.{Key, Oids};
    ghost use Rattle.pgw_meta.specs.Cached.{entries_of};

    ghost Value = { List (Key × Oids) };

    ghost view = { λ c. entries_of c.entries.entries };
}

impl PgMetadataCache {
    /// A cache that holds nothing. It takes no memory.
    pub fn new(alloc: Global) -> Self
        ensures { result ≡ [] }
    {
        PgMetadataCache {
            alloc,
            entries: HashMap::new(alloc),
        }
    }

    /// The oids of the type of this key. None where the cache does not hold the key. It takes no memory.
    pub fn lookup_type(&self, key: &PgMetadataCacheKey<'_>) -> Option<PgTypeMetadata>
        ensures { option_map metadata_of result ≡ option_map Ok (cached self.now (key_of key.now)) }
    {
        let oids = self.entries.get(key)?;
        Some(PgTypeMetadata::new(oids.oid, oids.array_oid))
    }

    /// Stores the oids of the type of this key, in place of those that it had. All other keys keep theirs. Memory is asked
    /// for the texts that the key borrows, and for a new key; where it is refused, the cache is as before.
    pub fn store_type(
        &mut self,
        type_name: PgMetadataCacheKey<'_>,
        type_metadata: InnerPgTypeMetadata,
    ) -> Result<(), NoMemory>
        ensures stored { OnOk result ((key : Key) → cached self.new key
            ≡ (if is_same_key key (key_of type_name.entry) then Some (oids_of type_metadata) else cached self.old key)) }
        ensures err { OnErr result (self.new ≡ self.old) }
    {
        let key = type_name.into_owned(self.alloc)?;
        self.entries.insert(key, type_metadata)?;
        Ok(())
    }
}

/// What holds a cache of oids.
pub trait GetPgMetadataCache {
    /// What its cache holds.
    ghost cache: { Self → List (Key × Oids) };

    /// The same with another cache.
    ghost with_cache: { Self → List (Key × Oids) → Self };

    /// Its cache. What is then left in that is its cache, and all else of it is as before.
    fn get_metadata_cache(&mut self) -> &mut PgMetadataCache
        ensures* writes_back { sem 𝓛 (Lends Self.row the_row self.entry result (with_cache self.old)) }
        ensures value { result.now ≡ cache self.old };
}
