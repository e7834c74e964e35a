use pgw_meta::{
    CatalogError, FailedToLookupTypeError, Found, FoundOids, InnerPgTypeMetadata, LookupError,
    NameText, PgMetadataCacheKey, PgType, PgTypeMetadata, SchemaError, TypeKey, TypeList,
};
use std::alloc::{AllocError, Global};
use std::borrow::CowStr;
use std::fmt::Display;
use std::test::Fail;

/// The key of a type that is not known, in a schema or in none that is said.
fn unknown(alloc: Global, schema: Option<&str>) -> Result<FailedToLookupTypeError, Fail> {
    let key = TypeKey::new(alloc, schema, "citext")?;
    Ok(FailedToLookupTypeError::new(key.as_key().into_owned(alloc)?))
}

#[test]
fn names_and_keys_keep_their_texts(rt: HostRuntime) -> Result<(), Fail> {
    let alloc = rt.alloc();
    let name = NameText::from_str(alloc, "citext")?;
    assert!(rt; name.as_str() == "citext");
    assert!(rt; name.len() == 6);
    assert!(rt; NameText::new(alloc).len() == 0);
    let owned = TypeKey::new(alloc, Some("public"), "citext")?;
    let borrowed = PgMetadataCacheKey::new(
        Some(CowStr::Borrowed("public")),
        CowStr::Borrowed("citext"),
    );
    assert!(rt; owned.as_key() == borrowed);
    assert!(rt; owned.as_key().schema() == Some("public"));
    assert!(rt; owned.as_key().type_name() == "citext");
    assert!(rt; owned.as_key().into_owned(alloc)? == borrowed);
    let bare = TypeKey::new(alloc, None, "citext")?;
    assert!(rt; bare.as_key() != borrowed);
    Ok(())
}

#[test]
fn metadata_have_both_oids(rt: HostRuntime) -> Result<(), Fail> {
    let metadata = PgTypeMetadata::new(16400, 16405);
    assert!(rt; metadata.oid() == Ok(16400));
    assert!(rt; metadata.array_oid() == Ok(16405));
    assert!(rt; metadata == PgTypeMetadata::from_result(Ok((16400, 16405))));
    assert!(rt; metadata.into_oids() == Ok((16400, 16405)));
    let inner = InnerPgTypeMetadata::from((16400, 16405));
    assert!(rt; inner.oid == 16400 && inner.array_oid == 16405);
    Ok(())
}

#[test]
fn metadata_keep_the_key_that_is_not_known(rt: HostRuntime) -> Result<(), Fail> {
    let alloc = rt.alloc();
    let metadata = PgTypeMetadata::from_result(Err(unknown(alloc, None)?));
    let error = unknown(alloc, None)?;
    assert!(rt; metadata.oid() == Err(&error));
    assert!(rt; metadata.array_oid() == Err(&error));
    assert!(rt; error.key().type_name() == "citext");
    assert!(rt; metadata.into_oids() == Err(error));
    Ok(())
}

#[test]
fn types_and_found_oids_are_listed(rt: HostRuntime) -> Result<(), Fail> {
    let alloc = rt.alloc();
    let mut types = TypeList::new(alloc);
    types.push(PgType::Int4)?;
    types.push(PgType::Text)?;
    assert!(rt; types.len() == 2);
    assert!(rt; matches!(types.get(1), Some(PgType::Text)));
    assert!(rt; types.get(2).is_none());
    assert!(rt; matches!(types.as_slice(), [PgType::Int4, PgType::Text]));
    let mut found = FoundOids::new(alloc);
    found.push(Found {
        key: TypeKey::new(alloc, None, "citext")?,
        oid: 16400,
        array_oid: 16405,
    })?;
    assert!(rt; found.len() == 1);
    assert!(rt; found.get(0).is_some_and(|entry| entry.oid == 16400));
    assert!(rt; found.get(1).is_none());
    assert!(rt; found.as_slice()[0].array_oid == 16405);
    Ok(())
}

/// The place of the first error that has another text than the one beside it.
fn first_other<E: Display>(
    alloc: Global,
    table: &[(E, &str)],
) -> Result<Option<usize>, AllocError> {
    for (place, (error, text)) in table.iter().enumerate() {
        if error.to_string(alloc)?.as_str() != *text {
            return Ok(Some(place));
        }
    }
    Ok(None)
}

#[test]
fn errors_have_their_texts(rt: HostRuntime) -> Result<(), Fail> {
    let alloc = rt.alloc();
    let schema = [
        (SchemaError::NoColumns, "no columns"),
        (SchemaError::TooManyColumns, "more than 32767 columns"),
        (
            SchemaError::NestedNullable { column: 3 },
            "column 3: a nullable of a nullable",
        ),
        (
            SchemaError::NestedArray { column: 3 },
            "column 3: an array of arrays",
        ),
        (
            SchemaError::BadRange { column: 3 },
            "column 3: a range over a type that has no ranges",
        ),
        (
            SchemaError::EmptyRecord { column: 3 },
            "column 3: a record without components",
        ),
        (
            SchemaError::WideRecord { column: 3 },
            "column 3: a record of more than 32767 components",
        ),
        (
            SchemaError::BadNamed { column: 3 },
            "column 3: a named type over neither text nor a record",
        ),
        (
            SchemaError::TooDeep { column: 3 },
            "column 3: more than 32 types, one in the other",
        ),
        (SchemaError::NoMemory, "out of memory"),
    ];
    let lookup = [
        (LookupError::Failed, "the lookup failed"),
        (LookupError::NoMemory, "out of memory"),
    ];
    let catalog = [
        (
            CatalogError::Repeated,
            "the name stands in the schema already",
        ),
        (CatalogError::NoMemory, "out of memory"),
    ];
    let unknown = [
        (
            unknown(alloc, Some("public"))?,
            "Failed to find a type oid for `public`.`citext`",
        ),
        (
            unknown(alloc, None)?,
            "Failed to find a type oid for `citext`",
        ),
    ];
    assert!(rt; first_other(alloc, &schema)? == None);
    assert!(rt; first_other(alloc, &lookup)? == None);
    assert!(rt; first_other(alloc, &catalog)? == None);
    assert!(rt; first_other(alloc, &unknown)? == None);
    Ok(())
}
