ghost use Rattle.std.specs.Prelude.{◌≡◌, ◌≤◌, [], Some, Ok, Err, IfOk, IsOkAnd, OnErr, option_map};
ghost use Rattle.std.specs.Borrow.{Lends, sem};
ghost use Rattle.pgw_wire.specs.Outside.{HasFailed};
ghost use Rattle.pgw_meta.specs.Known.{Key, Oids, Known, known};
ghost use Rattle.pgw_meta.specs.Keys.{text_of};
ghost use Rattle.pgw_meta.specs.Metadata.{metadata_of, found};
ghost use Rattle.pgw_meta.specs.Cached.{cached, behind_cache, Stores};
ghost use Rattle.pgw_meta.specs.declared.metadata_lookup.LookupError.TheVariants.{Failed};

use crate::{
    GetPgMetadataCache, LookupError, PgMetadataCache, PgMetadataCacheKey, PgMetadataLookup,
    PgTypeMetadata, TypeCatalog,
};
use std::alloc::Global;

/// A lookup that asks a catalog, and keeps the oids that it found.
#[derive(Drop)]
pub struct CachedLookup<C> {
    cache: PgMetadataCache,
    catalog: C,
}

impl<C: TypeCatalog> CachedLookup<C> {
    /// A lookup over the catalog that has found nothing yet, and knows what the catalog does. It takes no memory.
    #[tactic(auto, using(crate::proofs::SameKeys::behind_nothing))]
    pub fn new(alloc: Global, catalog: C) -> CachedLookup<C>
        ensures cache { result.cache ≡ [] }
        ensures catalog { result.catalog ≡ catalog }
        ensures known { option_map (behind_cache result.cache) (known (C.state result.catalog)) ≡ known (C.state catalog) }
    {
        CachedLookup {
            cache: PgMetadataCache::new(alloc),
            catalog,
        }
    }

    /// The catalog.
    pub fn catalog(&self) -> &C
        ensures { result.now ≡ self.now.catalog }
    {
        &self.catalog
    }
}

/// What is known is what the cache holds, and of other keys what the catalog knows. Its count of faults is the catalog's.
impl<C: TypeCatalog> PgMetadataLookup for CachedLookup<C> {
    ghost state = { λ l. record {
      told = record {
        known = option_map (behind_cache l.cache) (known (C.state l.catalog));
        faultless = (C.state l.catalog).told.faultless;
      };
      fault_count = (C.state l.catalog).fault_count;
      origin = tt;
    } };

    ghost quiet = { λ l. C.quiet l.catalog };

    /// A key that the cache holds leaves the catalog and the cache as they were. Of another the catalog is asked, and the
    /// oids that it finds are stored. An error stores nothing.
    fn lookup_type(
        &mut self,
        alloc: Global,
        type_name: &str,
        schema: Option<&str>,
    ) -> Result<PgTypeMetadata, LookupError>
        ensures found { IfOk result (λ metadata. (k : Known)
            → option_map (behind_cache self.old.cache) (known (C.state self.old.catalog)) ≡ Some k
            → metadata_of metadata ≡ found k (record { schema = text_of schema.entry; name = type_name.now })) }
        ensures failed { result ≡ Err Failed → HasFailed (C.state self.old.catalog) (C.state self.new.catalog) }
        ensures known { option_map (behind_cache self.new.cache) (known (C.state self.new.catalog))
            ≡ option_map (behind_cache self.old.cache) (known (C.state self.old.catalog)) }
        ensures faultless { (C.state self.new.catalog).told.faultless ≡ (C.state self.old.catalog).told.faultless }
        ensures faults { (C.state self.old.catalog).fault_count ≤ (C.state self.new.catalog).fault_count }
        ensures cached { (oids : Oids) → cached self.old.cache (record { schema = text_of schema.entry; name = type_name.now }) ≡ Some oids
            → (self.new ≡ self.old) × IsOkAnd result (λ metadata. metadata_of metadata ≡ Ok oids) }
        ensures stored { IfOk result (λ metadata. Stores self.old.cache self.new.cache
            (record { schema = text_of schema.entry; name = type_name.now }) (metadata_of metadata)) }
        ensures err { OnErr result (self.new.cache ≡ self.old.cache) }
    {
        let key = PgMetadataCacheKey::borrowed(schema, type_name);
        if let Some(metadata) = self.cache.lookup_type(&key) {
            return Ok(metadata);
        }
        match self.catalog.find(alloc, &key)? {
            Some(oids) => {
                self.cache.store_type(key, oids)?;
                Ok(PgTypeMetadata::new(oids.oid, oids.array_oid))
            }
            None => Ok(PgTypeMetadata::unknown(alloc, key)?),
        }
    }

    fn faults(&self) -> u64 {
        self.catalog.faults()
    }
}

impl<C> GetPgMetadataCache for CachedLookup<C> {
    ghost cache = { λ l. l.cache };

    ghost with_cache = { λ l cache. record l { cache = cache } };

    fn get_metadata_cache(&mut self) -> &mut PgMetadataCache {
        &mut self.cache
    }
}
