ghost use Rattle.std.specs.Prelude.{◌≡◌, ◌↔◌, ◌≤◌, [], ◌∷◌, ◌++◌, true, false, Some, Err, IsSome, MatchResult, OnOk, OnErr, if◌then◌else◌};
ghost use Rattle.std.specs.Option.{option_map};
ghost use Rattle.pgw_wire.specs.Memory.{no_calls, is_failing, succeeded, failed};
ghost use Rattle.pgw_meta.specs.Keys.{key_of};
ghost use Rattle.pgw_meta.specs.Metadata.{oids_of};
ghost use Rattle.pgw_meta.specs.NamedOids.{known_of};
ghost use Rattle.pgw_meta.specs.Catalog.{catalog_known, catalog_state, in_schema, on_path};
ghost use Rattle.pgw_meta.specs.declared.memory_catalog.CatalogError.TheVariants.{Repeated, NoMemory as no_memory};
ghost use Rattle.pgw_meta.specs.declared.metadata_lookup.LookupError.TheVariants.{Failed};

use crate::found_oids::first_oids;
use crate::{
    Found, FoundOids, InnerPgTypeMetadata, LookupError, NameText, PgMetadataCacheKey, TypeCatalog,
    TypeKey,
};
use pgw_wire::{FailingCalls, NoMemory};
use std::alloc::Global;
use std::marker::Model;
use thiserror::Error;

/// Why an entry was not added to a catalog.
#[derive(Clone, Copy, Debug, PartialEq, Eq, Error)]
pub enum CatalogError {
    /// The catalog has an entry of this name in this schema.
    #[error("the name stands in the schema already")]
    Repeated,
    /// Memory was asked for and refused.
    #[error("out of memory")]
    NoMemory,
}

impl From<NoMemory> for CatalogError {
    ghost use Rattle.std.specs.Prelude.{◌≡◌};
    ghost use Rattle.pgw_meta.specs.declared.memory_catalog.CatalogError.TheVariants.{NoMemory};

    ghost from_gives = { λ _ error. error ≡ NoMemory };

    fn from(_: NoMemory) -> CatalogError {
        CatalogError::NoMemory
    }
}

/// A catalog in memory, of entries that are given. Which of its searches fail is given too.
#[derive(Drop)]
pub struct MemoryCatalog {
    alloc: Global,
    entries: FoundOids,
    path: Vec<NameText>,
    searches: FailingCalls,
}

impl Model for MemoryCatalog {
    ghost use Rattle.std.specs.Prelude.{◌≡◌};
    ghost use Rattle.pgw_meta.specs.Catalog.{Catalog, faults_of};

    ghost Value = { Catalog };

    ghost view = { λ c. record { entries = c.entries; path = c.path.items; searches = c.searches } };

    // faults come of searches that fail alone
    ghost invariant = { λ c. faults_of c.searches.fails c.searches.faults ≡ c.searches.faults };
}

impl MemoryCatalog {
    /// A catalog without entries and with an empty path. The search with number k, counted from 0, fails exactly where k
    /// is in `fails`. It takes no memory.
    pub fn new(alloc: Global, fails: Vec<u64>) -> Self
        ensures { result ≡ record { entries = []; path = []; searches = no_calls fails.items } }
    {
        MemoryCatalog {
            alloc,
            entries: FoundOids::new(alloc),
            path: Vec::new(alloc),
            searches: FailingCalls::new(fails),
        }
    }

    /// Adds the oids of the type of this name in this schema, and of its arrays. `Repeated` exactly where the catalog has an
    /// entry of both. After an error it is as before.
    pub fn add(
        &mut self,
        schema: &str,
        name: &str,
        oid: u32,
        array_oid: u32,
    ) -> Result<(), CatalogError>
        ensures repeated { (result ≡ Err Repeated) ↔ IsSome (known_of self.old.entries (in_schema schema.now name.now)) }
        ensures ok { OnOk result (self.new ≡ record self.old {
          entries = self.old.entries ++ (record {
            key = record { schema = Some schema.now; name = name.now };
            oid = oid;
            array_oid = array_oid;
          } ∷ []);
        }) }
        ensures err { OnErr result (self.new ≡ self.old) }
    {
        let key = PgMetadataCacheKey::borrowed(Some(schema), name);
        if first_oids(self.entries.as_slice(), &key).is_some() {
            return Err(CatalogError::Repeated);
        }
        let key = TypeKey::new(self.alloc, Some(schema), name)?;
        self.entries.push(Found {
            key,
            oid,
            array_oid,
        })?;
        Ok(())
    }

    /// Adds a schema at the end of the path, in which a name without a schema is searched. Where memory is refused, the
    /// path is as before.
    pub fn push_path(&mut self, schema: &str) -> Result<(), NoMemory>
        ensures ok { OnOk result (self.new ≡ record self.old { path = self.old.path ++ (schema.now ∷ []) }) }
        ensures err { OnErr result (self.new ≡ self.old) }
    {
        let schema = NameText::from_str(self.alloc, schema)?;
        self.path.push(schema)?;
        Ok(())
    }

    /// How many searches there were. The count stops at the largest `u64`.
    pub fn searches(&self) -> u64
        ensures { result ≡ self.now.searches.calls }
    {
        self.searches.calls()
    }
}

// The oids of a name in the first schema of a path that has it.
fn search_path(entries: &[Found], path: &[NameText], name: &str) -> Option<InnerPgTypeMetadata>
    ensures { option_map oids_of result ≡ on_path entries.now path.now name.now }
{
    for schema in path {
        let key = PgMetadataCacheKey::borrowed(Some(schema.as_str()), name);
        let found = first_oids(entries, &key);
        if found.is_some() {
            return found;
        }
    }
    None
}

/// A key with a schema finds its entry; one without finds that of its name in the first schema of the path that has one.
/// Finding takes no memory.
impl TypeCatalog for MemoryCatalog {
    ghost use Rattle.pgw_meta.specs.Catalog.{catalog_state, no_faults};

    ghost state = { catalog_state };

    ghost quiet = { no_faults };

    fn find(
        &mut self,
        _alloc: Global,
        key: &PgMetadataCacheKey<'_>,
    ) -> Result<Option<InnerPgTypeMetadata>, LookupError>
        ensures answer { MatchResult result
            (λ oids. (is_failing self.old.searches ≡ false) × (option_map oids_of oids ≡ catalog_known self.old (key_of key.now)))
            (λ error. (is_failing self.old.searches ≡ true) × (error ≡ Failed)) }
        ensures counted { self.new ≡ record self.old {
          searches = if is_failing self.old.searches then failed self.old.searches else succeeded self.old.searches;
        } }
        ensures faults { self.old.searches.faults ≤ self.new.searches.faults }
    {
        self.searches.call()?;
        Ok(match key.schema() {
            Some(_) => first_oids(self.entries.as_slice(), key),
            None => search_path(self.entries.as_slice(), &self.path, key.type_name()),
        })
    }

    fn faults(&self) -> u64
        ensures count { result ≡ (catalog_state self.now).fault_count }
        ensures searches { result ≡ self.now.searches.faults }
    {
        self.searches.faults()
    }
}
