use crate::words::{WordError, WordFault};
use pgw_copy::CopyReadError;
use pgw_meta::TypeKey;
use pgw_tree::CopyFault;
use pgw_wire::{Break, Failed, NoMemory};
use std::alloc::{AllocError, Global};
use std::fmt::Display;
use std::test::Fail;

/// The place of the first error that has another text than the one beside it.
fn first_other<E: Display>(
    alloc: Global,
    table: &[(E, &str)],
) -> Result<Option<usize>, AllocError> {
    for (place, (error, text)) in table.iter().enumerate() {
        if error.to_string(alloc)?.as_str() != *text {
            return Ok(Some(place));
        }
    }
    Ok(None)
}

// each error, and its text
const BREAKS: [(Break, &str); 10] = [
    (Break::Null, "null"),
    (Break::Size, "size"),
    (Break::Count, "count"),
    (Break::Utf8, "utf8"),
    (Break::Sign, "sign"),
    (Break::Family, "family"),
    (Break::Prefix, "prefix"),
    (Break::ZeroOid, "zero oid"),
    (Break::Dimensions, "dimensions"),
    (Break::Surplus, "surplus"),
];

const READ: [(CopyReadError, &str); 6] = [
    (CopyReadError::BadHeader, "bad header"),
    (CopyReadError::BadFlags(0x8001ab), "bad flags 008001AB"),
    (CopyReadError::Truncated, "truncated"),
    (CopyReadError::BadFieldCount(-2), "bad field count -2"),
    (CopyReadError::ReadFault, "read fault"),
    (CopyReadError::NoMemory, "out of memory"),
];

const COPIED: [(CopyFault, &str); 12] = [
    (CopyFault::BadHeader, "bad header"),
    (CopyFault::BadFlags(0x8001ab), "bad flags 008001AB"),
    (CopyFault::Truncated, "truncated"),
    (CopyFault::BadFieldCount(-2), "bad field count -2"),
    (CopyFault::ReadFault, "read fault"),
    (CopyFault::NoMemory, "out of memory"),
    (
        CopyFault::UnexpectedEndOfRow { row: 3 },
        "row 3: too few fields",
    ),
    (
        CopyFault::BadValue {
            row: 7,
            column: 2,
            kind: Break::ZeroOid,
        },
        "row 7 column 2: zero oid",
    ),
    (
        CopyFault::TooLong { row: 7, column: 2 },
        "row 7 column 2: too long",
    ),
    (CopyFault::RowLimit, "row limit"),
    (CopyFault::LookupFault, "lookup fault"),
    (CopyFault::WriteFault, "write fault"),
];

const WORDS: [(WordFault, &str); 10] = [
    (WordFault::NoCommand, "missing command"),
    (WordFault::UnknownCommand, "unknown command"),
    (WordFault::BadNumber, "bad number"),
    (WordFault::Repeated, "repeated option"),
    (WordFault::BadOid, "bad oid word"),
    (WordFault::BadType(5), "bad type at 5"),
    (WordFault::DeepType(66), "type too deep at 66"),
    (WordFault::NoTypes, "missing type"),
    (WordFault::Schema(2), "schema fault 2"),
    (WordFault::NotYet, "not supported yet"),
];

const PLACED: [(WordError, &str); 2] = [
    (
        WordError::Fault {
            place: 3,
            fault: WordFault::Schema(2),
        },
        "word 3: schema fault 2",
    ),
    (WordError::NoMemory, "out of memory"),
];

#[test]
fn errors_have_their_texts(rt: HostRuntime) {
    let alloc = rt.alloc();
    assert_eq!(rt; first_other(alloc, &BREAKS), Ok(None));
    assert_eq!(rt; first_other(alloc, &READ), Ok(None));
    assert_eq!(rt; first_other(alloc, &COPIED), Ok(None));
    assert_eq!(rt; first_other(alloc, &WORDS), Ok(None));
    assert_eq!(rt; first_other(alloc, &PLACED), Ok(None));
    assert_eq!(rt;
        first_other(alloc, &[(NoMemory, "out of memory")]),
        Ok(None)
    );
    assert_eq!(rt;
        first_other(alloc, &[(Failed, "the source or sink failed")]),
        Ok(None)
    );
}

#[test]
fn unknown_types_have_their_names(rt: HostRuntime) -> Result<(), Fail> {
    let alloc = rt.alloc();
    let in_public = TypeKey::new(alloc, Some("public"), "citext")?;
    let table = [
        (
            CopyFault::UnknownType(TypeKey::new(alloc, None, "citext")?),
            "unknown type citext",
        ),
        (
            CopyFault::UnknownType(in_public),
            "unknown type public.citext",
        ),
    ];
    assert!(rt; first_other(alloc, &table)? == None);
    Ok(())
}
