use crate::test_runs::texts_of;
use crate::words::{WordError, WordFault, read_words};
use pgw_meta::FoundOids;
use std::alloc::Global;
use std::process::Abort;

/// Reads words: the limits and how many columns there are.
fn read(rt: &impl Abort, alloc: Global, words: &[&str]) -> Result<(u64, u32, usize), WordError> {
    let texts = texts_of(alloc, words).expect(rt, "memory");
    let plan = read_words(alloc, &texts)?;
    Ok((
        plan.limits.rows_max(),
        plan.limits.field_max(),
        plan.schema.columns().len(),
    ))
}

// words, the limits that they set, and how many columns they have
const LIMITS: [(&[&str], u64, u32, usize); 13] = [
    (
        &[
            "copy", "bool", "char?", "int2", "int4?", "int8", "oid", "text", "bytea?", "uuid",
            "money", "pg_lsn", "macaddr", "macaddr8",
        ],
        18446744073709551615,
        2147483647,
        13,
    ),
    (&["copy", "int4"], 18446744073709551615, 2147483647, 1),
    (
        &["copy", "int8range", "tsmultirange?", "numrange?[]"],
        18446744073709551615,
        2147483647,
        3,
    ),
    (
        &["copy", "@citext:text?", "@my.mood:text[]", "@t:text?[]?"],
        18446744073709551615,
        2147483647,
        3,
    ),
    (&["copy", "rows=0", "int4", "text"], 0, 2147483647, 2),
    (&["copy", "rows=5", "field=2", "text"], 5, 2, 1),
    (&["copy", "field=2", "text"], 18446744073709551615, 2, 1),
    (&["copy", "field=2", "rows=5", "text?"], 5, 2, 1),
    (
        &["copy", "rows=18446744073709551615", "int4"],
        18446744073709551615,
        2147483647,
        1,
    ),
    (
        &["copy", "field=2147483647", "int4?"],
        18446744073709551615,
        2147483647,
        1,
    ),
    (&["copy", "rows=007", "int4"], 7, 2147483647, 1),
    (
        &["copy", "oid=t:1:2", "field=2", "oid=s.t:1:2", "int4"],
        18446744073709551615,
        2,
        1,
    ),
    (
        &["copy", "rows=00000000000000000000000000001", "int4"],
        1,
        2147483647,
        1,
    ),
];

// a base with one suffix more than may stand behind it
const DEEP: &str = "int4[][][][][][][][][][][][][][][][][][][][][][][][][][][][][][][][]";

// words, the place of the first that is wrong, and what is wrong
const FAULTS: [(&[&str], usize, WordFault); 35] = [
    (
        &["copy", "rows=1", "rows=2", "int4"],
        2,
        WordFault::Repeated,
    ),
    (
        &["copy", "field=1", "rows=1", "field=1", "int4"],
        3,
        WordFault::Repeated,
    ),
    (&["copy", "rows=x", "int4"], 1, WordFault::BadNumber),
    (&["copy", "rows=", "int4"], 1, WordFault::BadNumber),
    (&["copy", "rows=+1", "int4"], 1, WordFault::BadNumber),
    (&["copy", "rows=-1", "int4"], 1, WordFault::BadNumber),
    (&["copy", "rows= 1", "int4"], 1, WordFault::BadNumber),
    (&["copy", "rows=1x", "int4"], 1, WordFault::BadNumber),
    (
        &["copy", "rows=18446744073709551616", "int4"],
        1,
        WordFault::BadNumber,
    ),
    (&["copy", "field=", "int4"], 1, WordFault::BadNumber),
    (
        &["copy", "field=2147483648", "int4"],
        1,
        WordFault::BadNumber,
    ),
    (
        &["copy", "field=18446744073709551616", "int4"],
        1,
        WordFault::BadNumber,
    ),
    (&["copy", "rows=x", "rows=1"], 1, WordFault::BadNumber),
    (&["copy", "rows=1", "rows=x"], 2, WordFault::BadNumber),
    (
        &["copy", "rows=1", "rows=1", "field=x"],
        2,
        WordFault::Repeated,
    ),
    (
        &["copy", "oid=t:1:2", "oid=public.t:3:4", "int4"],
        2,
        WordFault::Repeated,
    ),
    (
        &["copy", "oid=s.t:1:2", "rows=1", "oid=s.t:1:2"],
        3,
        WordFault::Repeated,
    ),
    (
        &["copy", "oid=t:1:2", "oid=t:1:x", "int4"],
        2,
        WordFault::BadOid,
    ),
    (&["copy", "int4", "oid=t:1:2"], 2, WordFault::BadType(3)),
    (&["copy", "int4", "rows=1"], 2, WordFault::BadType(0)),
    (&["copy", "int4", "rows=x"], 2, WordFault::BadType(0)),
    (
        &["copy", "rows=1", "int9", "rows=1"],
        2,
        WordFault::BadType(0),
    ),
    (&["copy", "Rows=1", "int4"], 1, WordFault::BadType(0)),
    (&["copy", "rows", "int4"], 1, WordFault::BadType(0)),
    (&["copy", ""], 1, WordFault::BadType(0)),
    (&["copy", "text", "int4?)"], 2, WordFault::BadType(5)),
    (&["copy", "@citext:int4"], 1, WordFault::BadType(8)),
    (&["copy", "(int4,", "int4"], 1, WordFault::BadType(6)),
    (&["copy", "(int4,text)"], 1, WordFault::NotYet),
    (&["copy", DEEP], 1, WordFault::DeepType(66)),
    (&["copy", "text", "int4??"], 2, WordFault::Schema(3)),
    (
        &["copy", "rows=1", "int4[]?[]", "int4??"],
        2,
        WordFault::Schema(4),
    ),
    (&["copy", "int4??", "int"], 2, WordFault::BadType(0)),
    (&["copy", "rows=1"], 2, WordFault::NoTypes),
    (&["copy", "rows=1", "field=1"], 3, WordFault::NoTypes),
];

#[test]
fn words_are_read_up_to_the_first_fault(rt: HostRuntime) {
    for (words, rows_max, field_max, columns) in LIMITS {
        let read = read(&rt, rt.alloc(), words);
        assert_eq!(rt; read, Ok((rows_max, field_max, columns)));
    }
    for (words, place, fault) in FAULTS {
        let read = read(&rt, rt.alloc(), words);
        assert_eq!(rt; read, Err(WordError::Fault { place, fault }));
    }
}

// an option, and the entry that it gives: its key and its two oids
const ENTRIES: [(&str, &str); 5] = [
    ("oid=citext:16400:16405", "public.citext 16400 16405"),
    ("oid=public.citext:1:2", "public.citext 1 2"),
    ("oid=My_Schema1.7:0:4294967295", "My_Schema1.7 0 4294967295"),
    ("oid=t:007:0000000000000000000000012", "public.t 7 12"),
    (
        "oid=_23456789_123456789_123456789_123456789_123456789_123456789_123:1:2",
        "public._23456789_123456789_123456789_123456789_123456789_123456789_123 1 2",
    ),
];

// options that have another form
const BAD_OIDS: [&str; 19] = [
    "oid=",
    "oid=t",
    "oid=t:1",
    "oid=t:1:2:3",
    "oid=:1:2",
    "oid=.t:1:2",
    "oid=s.:1:2",
    "oid=a.b.t:1:2",
    "oid=t-t:1:2",
    "oid= t:1:2",
    "oid=\u{e4}:1:2",
    "oid=_23456789_123456789_123456789_123456789_123456789_123456789_1234:1:2",
    "oid=t::2",
    "oid=t:1:",
    "oid=t:+1:2",
    "oid=t:1:-2",
    "oid=t:1: 2",
    "oid=t:4294967296:2",
    "oid=t:1:18446744073709551618",
];

/// The entries of a plan of an option.
fn entries(rt: &impl Abort, alloc: Global, option: &str) -> Result<FoundOids, WordError> {
    let texts = texts_of(alloc, &["copy", option, "text"]).expect(rt, "memory");
    Ok(read_words(alloc, &texts)?.entries)
}

#[test]
fn options_give_oids(rt: HostRuntime) {
    for (option, wanted) in ENTRIES {
        let entries = entries(&rt, rt.alloc(), option).expect(&rt, "a plan");
        let entry = entries.get(0).expect(&rt, "an entry");
        let text = format!(in rt.alloc(); "{} {} {}", entry.key, entry.oid, entry.array_oid);
        assert!(rt; text.expect(&rt, "memory").as_str() == wanted);
    }
    for option in BAD_OIDS {
        let refused = entries(&rt, rt.alloc(), option).err();
        let bad = WordError::Fault {
            place: 1,
            fault: WordFault::BadOid,
        };
        assert!(rt; refused == Some(bad));
    }
}
