use pgw_wire::{ByteBuffer, Output, PgValue, SqlError, TypeOidLookup};
use std::num::NonZeroU32;
use std::test::Fail;

const OID: NonZeroU32 = NonZeroU32::MIN;

#[test]
fn a_value_lends_its_bytes(rt: HostRuntime) {
    let value = PgValue::new(b"\0\0\0\x2a\x07", OID);
    assert!(rt; value.as_bytes() == b"\0\0\0\x2a\x07".as_slice());
    assert!(rt; value.get_oid() == OID);
    assert!(rt; value.lookup() == OID.lookup());
    assert!(rt; value.subslice(3..5).map(|part| part.as_bytes()) == Ok(b"\x2a\x07".as_slice()));
    assert!(rt;
        value.subslice(3..6).map(|part| part.as_bytes())
            == Err(SqlError::ShortValue { have: 5, want: 6 })
    );
}

// The lookup is a number here, which counts how often it was asked.
#[test]
fn an_output_writes_behind_its_start(rt: HostRuntime) -> Result<(), Fail> {
    let mut buffer = ByteBuffer::new(rt.alloc());
    buffer.push_all(b"\x01\x02")?;
    let mut lookup = 7;
    let mut out = Output::new(&mut buffer, &mut lookup);
    let mut other = ByteBuffer::new(out.alloc());
    other.push_all(b"\x06")?;
    assert!(rt; out.written() == 0);
    out.write_all(b"\xff\xff\xff\xff\x03")?;
    out.write_all(b"\x04")?;
    assert!(rt; out.written() == 6);
    out.patch(0, 2);
    out.take_back(5);
    *out.metadata_lookup() += 1;
    let mut inner = out.reborrow();
    inner.write_all(b"\x05")?;
    assert!(rt; inner.written() == 1);
    *inner.metadata_lookup() += 1;
    let buffer = out.into_inner();
    assert!(rt; buffer.as_bytes() == b"\x01\x02\0\0\0\x02\x03\x05".as_slice());
    assert!(rt; lookup == 9);
    Ok(())
}
