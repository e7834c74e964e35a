use pgw_notation::{TypeFault, parse_type, type_fault};
use std::test::Fail;

// texts that no type is written as, and what is printed of them
const FAULTS: [(&str, &str); 24] = [
    ("", "bad type at 0"),
    (" int4", "bad type at 0"),
    ("int9", "bad type at 0"),
    ("Int4", "bad type at 0"),
    ("[]", "bad type at 0"),
    ("int4[", "bad type at 4"),
    ("int4]", "bad type at 4"),
    ("int4)", "bad type at 4"),
    ("int4,int4", "bad type at 4"),
    ("int4(int4)", "bad type at 4"),
    ("int4é", "bad type at 4"),
    ("(int4", "bad type at 5"),
    ("(int4,)", "bad type at 6"),
    ("(int4, int4)", "bad type at 6"),
    ("()", "bad type at 1"),
    ("(int,int4)", "bad type at 1"),
    ("@:text", "bad type at 1"),
    ("@t", "bad type at 2"),
    ("@t.:text", "bad type at 3"),
    ("@s.t.u:text", "bad type at 4"),
    ("@t:int4", "bad type at 3"),
    ("@t:@u:text", "bad type at 3"),
    ("((((((((((((((((((((((((((((((((", "type too deep at 31"),
    (
        "int4????????????????????????????????",
        "type too deep at 35",
    ),
];

#[test]
fn the_first_fault_of_a_text_is_told(rt: HostRuntime) -> Result<(), Fail> {
    let alloc = rt.alloc();
    for (text, printed) in FAULTS {
        match parse_type(alloc, text) {
            Ok(_) => panic!(rt; "a type"),
            Err(fault) => {
                assert!(rt; fault.to_string(alloc)?.as_str() == printed);
                assert!(rt; type_fault(text) == Some(fault));
            }
        }
    }
    Ok(())
}

#[test]
fn want_of_memory_is_printed(rt: HostRuntime) -> Result<(), Fail> {
    assert!(rt; TypeFault::NoMemory.to_string(rt.alloc())?.as_str() == "out of memory");
    Ok(())
}
