use pgw_meta::PgType;
use pgw_notation::{TypeFault, parse_type, type_fault};
use std::test::Fail;

// the names of the types that have one, and the types as they are printed
const NAMED: [(&str, &str); 33] = [
    ("bool", "Bool"),
    ("char", "Char"),
    ("int2", "Int2"),
    ("int4", "Int4"),
    ("int8", "Int8"),
    ("oid", "Oid"),
    ("text", "Text"),
    ("bytea", "Bytea"),
    ("uuid", "Uuid"),
    ("money", "Money"),
    ("pg_lsn", "Lsn"),
    ("macaddr", "Mac"),
    ("macaddr8", "Mac8"),
    ("inet", "Inet"),
    ("cidr", "Cidr"),
    ("date", "Date"),
    ("time", "Time"),
    ("timestamp", "Timestamp"),
    ("timestamptz", "Timestamptz"),
    ("interval", "Interval"),
    ("numeric", "Numeric"),
    ("int4range", "Range(Int4)"),
    ("int8range", "Range(Int8)"),
    ("numrange", "Range(Numeric)"),
    ("daterange", "Range(Date)"),
    ("tsrange", "Range(Timestamp)"),
    ("tstzrange", "Range(Timestamptz)"),
    ("int4multirange", "Multirange(Int4)"),
    ("int8multirange", "Multirange(Int8)"),
    ("nummultirange", "Multirange(Numeric)"),
    ("datemultirange", "Multirange(Date)"),
    ("tsmultirange", "Multirange(Timestamp)"),
    ("tstzmultirange", "Multirange(Timestamptz)"),
];

#[test]
fn each_name_of_a_type_is_read_as_it(rt: HostRuntime) -> Result<(), Fail> {
    let alloc = rt.alloc();
    for (name, printed) in NAMED {
        assert!(rt; type_fault(name).is_none());
        let t = parse_type(alloc, name)?;
        assert!(rt; format!(in alloc; "{t:?}")?.as_str() == printed);
    }
    Ok(())
}

#[test]
fn suffixes_are_read_from_the_base_on(rt: HostRuntime) -> Result<(), Fail> {
    let alloc = rt.alloc();
    let t = parse_type(alloc, "int4?[]?")?;
    assert!(rt; format!(in alloc; "{t:?}")?.as_str() == "Nullable(Array(Nullable(Int4)))");
    Ok(())
}

#[test]
fn a_record_has_its_components_in_order(rt: HostRuntime) -> Result<(), Fail> {
    let alloc = rt.alloc();
    let PgType::Record(parts) = parse_type(alloc, "(int4,(text?),uuid[])")? else {
        panic!(rt; "no record");
    };
    assert!(rt; parts.len() == 3);
    assert!(rt; matches!(parts.get(0), Some(PgType::Int4)));
    assert!(rt; matches!(parts.get(1), Some(PgType::Record(_))));
    assert!(rt; matches!(parts.get(2), Some(PgType::Array(_))));
    Ok(())
}

#[test]
fn a_named_type_has_its_key(rt: HostRuntime) -> Result<(), Fail> {
    let alloc = rt.alloc();
    let PgType::Named(alone, part) = parse_type(alloc, "@citext:text")? else {
        panic!(rt; "no named type");
    };
    assert!(rt; alone.schema.is_none());
    assert!(rt; alone.name.as_str() == "citext");
    assert!(rt; matches!(*part, PgType::Text));
    let PgType::Named(key, part) = parse_type(alloc, "@text.7:(int4)")? else {
        panic!(rt; "no named type");
    };
    assert!(rt; key.to_string(alloc)?.as_str() == "text.7");
    assert!(rt; matches!(*part, PgType::Record(_)));
    Ok(())
}

#[test]
fn what_is_as_deep_as_may_be_is_read(rt: HostRuntime) -> Result<(), TypeFault> {
    let alloc = rt.alloc();
    let mut text = String::new(alloc);
    for _ in 0..31 {
        text.push('(')?;
    }
    text.push_str("int4")?;
    for _ in 0..31 {
        for _ in 0..31 {
            text.push('?')?;
        }
        text.push(')')?;
    }
    parse_type(alloc, text.as_str())?;
    Ok(())
}
