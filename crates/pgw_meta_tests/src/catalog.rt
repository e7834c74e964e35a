use pgw_meta::{
    CachedLookup, CatalogError, GetPgMetadataCache, InnerPgTypeMetadata, LookupError,
    MemoryCatalog, PgMetadataCache, PgMetadataLookup, TypeCatalog, TypeKey,
};
use std::alloc::Global;
use std::test::Fail;

/// A catalog with the type `t` in the schemas `a` and `b`, and both on its path, `b` first. The searches with these
/// numbers fail.
fn two_schemas(alloc: Global, fails: Vec<u64>) -> Result<MemoryCatalog, Fail> {
    let mut catalog = MemoryCatalog::new(alloc, fails);
    catalog.add("a", "t", 1, 2)?;
    catalog.add("b", "t", 3, 4)?;
    catalog.push_path("b")?;
    catalog.push_path("a")?;
    Ok(catalog)
}

#[test]
fn a_catalog_finds_by_schema_or_path(rt: HostRuntime) -> Result<(), Fail> {
    let alloc = rt.alloc();
    let mut catalog = two_schemas(alloc, Vec::new(alloc))?;
    assert!(rt; catalog.add("a", "t", 5, 6) == Err(CatalogError::Repeated));
    let table = [
        (None, "t", Some((3, 4))),
        (Some("a"), "t", Some((1, 2))),
        (Some("c"), "t", None),
        (None, "u", None),
    ];
    for (schema, name, oids) in &table {
        let key = TypeKey::new(alloc, *schema, name)?;
        let found = catalog.find(alloc, &key.as_key())?;
        assert!(rt; found == oids.map(InnerPgTypeMetadata::from));
    }
    assert!(rt; catalog.searches() == 4 && catalog.faults() == 0);
    Ok(())
}

#[test]
fn a_cache_overwrites_one_key(rt: HostRuntime) -> Result<(), Fail> {
    let alloc = rt.alloc();
    let (t, u) = (
        TypeKey::new(alloc, None, "t")?,
        TypeKey::new(alloc, None, "u")?,
    );
    let mut cache = PgMetadataCache::new(alloc);
    assert!(rt; cache.lookup_type(&t.as_key()).is_none());
    cache.store_type(u.as_key(), InnerPgTypeMetadata::from((7, 8)))?;
    cache.store_type(t.as_key(), InnerPgTypeMetadata::from((1, 2)))?;
    cache.store_type(t.as_key(), InnerPgTypeMetadata::from((16400, 16405)))?;
    let stored = cache.lookup_type(&t.as_key());
    assert!(rt; stored.is_some_and(|oids| oids.into_oids() == Ok((16400, 16405))));
    let kept = cache.lookup_type(&u.as_key());
    assert!(rt; kept.is_some_and(|oids| oids.into_oids() == Ok((7, 8))));
    Ok(())
}

#[test]
fn a_key_is_searched_once(rt: HostRuntime) -> Result<(), Fail> {
    let alloc = rt.alloc();
    let fails = vec![in alloc; 0]?;
    let mut lookup = CachedLookup::new(alloc, two_schemas(alloc, fails)?);
    assert!(rt; lookup.lookup_type(alloc, "t", None) == Err(LookupError::Failed));
    for _ in 0..2 {
        let found = lookup.lookup_type(alloc, "t", None)?;
        assert!(rt; found.into_oids() == Ok((3, 4)));
    }
    assert!(rt; lookup.catalog().searches() == 2 && lookup.faults() == 1);
    let unknown = lookup.lookup_type(alloc, "u", None)?;
    assert!(rt; unknown.oid().is_err());
    let key = TypeKey::new(alloc, None, "t")?;
    assert!(rt;
        lookup
            .get_metadata_cache()
            .lookup_type(&key.as_key())
            .is_some()
    );
    Ok(())
}
