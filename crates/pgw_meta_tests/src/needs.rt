use pgw_meta::{
    Found, FoundOids, Need, NeedList, PgMetadataLookup, PgType, Schema, TypeKey, TypeList,
    array_oid_of, oid_of,
};
use pgw_wire::NoMemory;
use std::alloc::Global;
use std::test::Fail;

fn array(alloc: Global, part: PgType) -> Result<PgType, NoMemory> {
    Ok(PgType::Array(Box::new(alloc, part)?))
}

/// The named type of this name, over `text`, in no schema that is said.
fn named(alloc: Global, name: &str) -> Result<PgType, NoMemory> {
    let key = TypeKey::new(alloc, None, name)?;
    Ok(PgType::Named(key, Box::new(alloc, PgType::Text)?))
}

/// The oids of the type `citext` and of its arrays, as a server may have them.
fn found_citext(alloc: Global) -> Result<FoundOids, NoMemory> {
    let mut found = FoundOids::new(alloc);
    found.push(Found {
        key: TypeKey::new(alloc, None, "citext")?,
        oid: 16400,
        array_oid: 16405,
    })?;
    Ok(found)
}

#[test]
fn needs_are_joined_at_the_first_place(rt: HostRuntime) -> Result<(), Fail> {
    let alloc = rt.alloc();
    let mut components = TypeList::new(alloc);
    components.push(array(alloc, named(alloc, "u")?)?)?;
    components.push(named(alloc, "t")?)?;
    let mut columns = TypeList::new(alloc);
    columns.push(named(alloc, "v")?)?;
    columns.push(array(alloc, named(alloc, "u")?)?)?;
    columns.push(PgType::Record(components))?;
    let schema = Schema::new(alloc, columns)?;
    let expected = [("u", true, true), ("t", true, false)];
    assert!(rt; schema.needs().len() == 2);
    for (need, (name, type_side, array_side)) in schema.needs().as_slice().iter().zip(&expected) {
        assert!(rt; need.key.name.as_str() == *name);
        assert!(rt; need.type_side == *type_side && need.array_side == *array_side);
    }
    Ok(())
}

#[test]
fn needs_are_listed(rt: HostRuntime) -> Result<(), Fail> {
    let alloc = rt.alloc();
    let mut needs = NeedList::new(alloc);
    needs.push(Need {
        key: TypeKey::new(alloc, None, "citext")?,
        type_side: true,
        array_side: false,
    })?;
    assert!(rt; needs.get(0).is_some_and(|need| need.type_side));
    assert!(rt; needs.get(1).is_none());
    Ok(())
}

#[test]
fn types_have_their_oids(rt: HostRuntime) -> Result<(), Fail> {
    let alloc = rt.alloc();
    let found = found_citext(alloc)?;
    let range = PgType::Range(Box::new(alloc, PgType::Date)?);
    let table = [
        (PgType::Numeric, 1700, 1231),
        (array(alloc, PgType::Text)?, 1009, 0),
        (range, 3912, 3913),
        (PgType::Record(TypeList::new(alloc)), 2249, 2287),
        (named(alloc, "citext")?, 16400, 16405),
        (array(alloc, named(alloc, "citext")?)?, 16405, 0),
        (named(alloc, "hstore")?, 0, 0),
    ];
    for (t, oid, array_oid) in &table {
        assert!(rt; oid_of(&found, t) == *oid);
        assert!(rt; array_oid_of(&found, t) == *array_oid);
    }
    Ok(())
}

#[test]
fn found_oids_are_looked_up(rt: HostRuntime) -> Result<(), Fail> {
    let alloc = rt.alloc();
    let mut found = found_citext(alloc)?;
    let known = found.lookup_type(alloc, "citext", None)?;
    assert!(rt; known.into_oids() == Ok((16400, 16405)));
    let unknown = found.lookup_type(alloc, "citext", Some("public"))?;
    assert!(rt;
        unknown
            .oid()
            .is_err_and(|error| error.key().schema() == Some("public"))
    );
    assert!(rt; found.faults() == 0);
    Ok(())
}
