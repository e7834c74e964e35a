use pgw_meta::{PgType, Schema, SchemaError, TypeKey, TypeList};
use pgw_wire::NoMemory;
use std::alloc::Global;
use std::test::Fail;

/// So many types of `int4`.
fn numbers(alloc: Global, count: usize) -> Result<TypeList, NoMemory> {
    let mut types = TypeList::new(alloc);
    for _ in 0..count {
        types.push(PgType::Int4)?;
    }
    Ok(types)
}

fn nullable(alloc: Global, part: PgType) -> Result<PgType, NoMemory> {
    Ok(PgType::Nullable(Box::new(alloc, part)?))
}

fn array(alloc: Global, part: PgType) -> Result<PgType, NoMemory> {
    Ok(PgType::Array(Box::new(alloc, part)?))
}

fn range(alloc: Global, part: PgType) -> Result<PgType, NoMemory> {
    Ok(PgType::Range(Box::new(alloc, part)?))
}

fn citext(alloc: Global, part: PgType) -> Result<PgType, NoMemory> {
    let key = TypeKey::new(alloc, Some("public"), "citext")?;
    Ok(PgType::Named(key, Box::new(alloc, part)?))
}

/// A type inside so many records of one component.
fn inside(alloc: Global, records: usize, part: PgType) -> Result<PgType, NoMemory> {
    let mut t = part;
    for _ in 0..records {
        let mut components = TypeList::new(alloc);
        components.push(t)?;
        t = PgType::Record(components);
    }
    Ok(t)
}

/// What a schema of an `int4` and this type answers.
fn fault_of(alloc: Global, second: PgType) -> Result<Option<SchemaError>, NoMemory> {
    let mut columns = numbers(alloc, 1)?;
    columns.push(second)?;
    Ok(Schema::new(alloc, columns).err())
}

/// A column with the fault of this number, or one without a fault.
fn column(alloc: Global, number: u8) -> Result<PgType, NoMemory> {
    match number {
        3 => nullable(alloc, nullable(alloc, PgType::Text)?),
        4 => array(alloc, nullable(alloc, array(alloc, PgType::Int4)?)?),
        5 => range(alloc, PgType::Text),
        6 => Ok(PgType::Record(TypeList::new(alloc))),
        7 => Ok(PgType::Record(numbers(alloc, 32768)?)),
        8 => citext(alloc, PgType::Int4),
        9 => inside(alloc, 31, range(alloc, PgType::Int4)?),
        _ => nullable(alloc, array(alloc, nullable(alloc, PgType::Uuid)?)?),
    }
}

const FAULTS: [Option<SchemaError>; 8] = [
    Some(SchemaError::NestedNullable { column: 1 }),
    Some(SchemaError::NestedArray { column: 1 }),
    Some(SchemaError::BadRange { column: 1 }),
    Some(SchemaError::EmptyRecord { column: 1 }),
    Some(SchemaError::WideRecord { column: 1 }),
    Some(SchemaError::BadNamed { column: 1 }),
    Some(SchemaError::TooDeep { column: 1 }),
    None,
];

#[test]
fn each_fault_of_a_column_is_told(rt: HostRuntime) -> Result<(), Fail> {
    for (place, fault) in FAULTS.iter().enumerate() {
        let number = place as u8 + 3;
        let answer = fault_of(rt.alloc(), column(rt.alloc(), number)?)?;
        assert!(rt; answer == *fault);
        assert!(rt; answer.is_none_or(|error| error.number() == number));
    }
    Ok(())
}

#[test]
fn columns_are_1_to_32767(rt: HostRuntime) -> Result<(), Fail> {
    let alloc = rt.alloc();
    let none = Schema::new(alloc, numbers(alloc, 0)?).err();
    assert!(rt; none == Some(SchemaError::NoColumns));
    let most = Schema::new(alloc, numbers(alloc, 32767)?)?;
    assert!(rt; most.columns().len() == 32767);
    let more = Schema::new(alloc, numbers(alloc, 32768)?).err();
    assert!(rt; more == Some(SchemaError::TooManyColumns));
    Ok(())
}

#[test]
fn depth_32_is_the_last(rt: HostRuntime) -> Result<(), Fail> {
    let alloc = rt.alloc();
    let last = fault_of(alloc, inside(alloc, 31, PgType::Text)?)?;
    assert!(rt; last == None);
    let twice = nullable(alloc, nullable(alloc, PgType::Text)?)?;
    let outer = fault_of(alloc, inside(alloc, 31, twice)?)?;
    assert!(rt; outer == Some(SchemaError::NestedNullable { column: 1 }));
    let named = citext(alloc, PgType::Text)?;
    let part = fault_of(alloc, inside(alloc, 31, named)?)?;
    assert!(rt; part == Some(SchemaError::TooDeep { column: 1 }));
    Ok(())
}
