ghost use Rattle.std.specs.Prelude.{⊤};

use pgw_wire::{
    BufReadSource, ByteBuffer, Failed, MemorySink, MemorySource, NoMemory, QuietSink, QuietSource,
    ReadSource, Sink, Source, Taker, WriteSink, send, take_i16, take_i32, take_i64, take_piece,
    take_u8, take_u16, take_u32, take_u64,
};
use std::alloc::Global;
use std::io;
use std::io::{BufReader, Read, Write};
use std::test::Fail;

#[test]
fn numbers_and_pieces_are_cut_from_the_front(rt: HostRuntime) {
    let bytes = b"\x80\x01\xff\xff\xff\xfe\x07".as_slice();
    let behind_two = b"\xff\xff\xff\xfe\x07".as_slice();
    let behind_four = b"\xff\xfe\x07".as_slice();
    assert!(rt; take_u16(bytes) == Some((0x8001, behind_two)));
    assert!(rt; take_i16(bytes) == Some((-0x7fff, behind_two)));
    assert!(rt; take_u32(bytes) == Some((0x8001_ffff, behind_four)));
    assert!(rt; take_i32(behind_two) == Some((-2, b"\x07".as_slice())));
    assert!(rt; take_piece(bytes, 6) == Some((&bytes[..6], b"\x07".as_slice())));
    assert!(rt; take_u16(b"\x80") == None);
    assert!(rt; take_i32(b"\x80\x01\xff") == None);
    assert!(rt; take_piece(bytes, 8) == None);
}

// The eight bytes 12 .. 56 and their number are those of Rust's page on `u64::from_be_bytes`.
#[test]
fn numbers_of_one_and_eight_bytes_are_cut_from_the_front(rt: HostRuntime) {
    assert!(rt; take_u8(b"\xfe\x01") == Some((254, b"\x01".as_slice())));
    assert!(rt; take_u8(b"") == None);
    let bytes = b"\x12\x34\x56\x78\x90\x12\x34\x56\x07".as_slice();
    let behind = b"\x07".as_slice();
    assert!(rt; take_u64(bytes) == Some((0x1234_5678_9012_3456, behind)));
    assert!(rt; take_i64(bytes) == Some((0x1234_5678_9012_3456, behind)));
    let least = b"\x80\0\0\0\0\0\0\0".as_slice();
    let nothing = b"".as_slice();
    assert!(rt; take_u64(least) == Some((9223372036854775808, nothing)));
    assert!(rt; take_i64(least) == Some((-9223372036854775808, nothing)));
    assert!(rt; take_u64(&bytes[..7]) == None);
    assert!(rt; take_i64(&bytes[..7]) == None);
}

#[test]
fn a_buffer_grows_and_is_patched(rt: HostRuntime) -> Result<(), Fail> {
    let mut buffer = ByteBuffer::new(rt.alloc());
    buffer.push_all(b"\x01\x02")?;
    buffer.push_all(b"\x03\x04\x05\x06")?;
    assert!(rt; buffer.len() == 6);
    buffer.patch_u32(1, 0xa0b0_c0d0);
    assert!(rt; buffer.as_bytes() == b"\x01\xa0\xb0\xc0\xd0\x06".as_slice());
    buffer.clear();
    assert!(rt; buffer.len() == 0);
    Ok(())
}

#[test]
fn a_buffer_takes_pieces_into_reserved_room(rt: HostRuntime) -> Result<(), Fail> {
    let mut buffer = ByteBuffer::new(rt.alloc());
    buffer.reserve(4)?;
    buffer.push_reserved(b"\x01\x02\x03");
    buffer.push_reserved(b"\x04");
    assert!(rt; buffer.as_bytes() == b"\x01\x02\x03\x04".as_slice());
    buffer.truncate(2);
    assert!(rt; buffer.reserve(usize::MAX) == Err(NoMemory));
    assert!(rt; buffer.as_bytes() == b"\x01\x02".as_slice());
    let mut other = ByteBuffer::new(buffer.alloc());
    other.push_all(b"\x05")?;
    assert!(rt; other.as_bytes() == b"\x05".as_slice());
    Ok(())
}

// Calls 1 and 3 fail; the successful ones give at most 2, 1 (for 0) and then all bytes.
#[test]
fn a_memory_source_cuts_and_fails_as_told(rt: HostRuntime) -> Result<(), Fail> {
    let alloc = rt.alloc();
    let bytes = b"abcdefg".to_vec(alloc)?;
    let mut source = MemorySource::new(bytes, [2, 0].to_vec(alloc)?, [1, 3].to_vec(alloc)?);
    let mut buf = [0; 5];
    for (answer, front) in [
        (Ok(2), b"ab\0\0\0"),
        (Err(Failed), b"ab\0\0\0"),
        (Ok(1), b"cb\0\0\0"),
        (Err(Failed), b"cb\0\0\0"),
        (Ok(4), b"defg\0"),
        (Ok(0), b"defg\0"),
    ] {
        assert!(rt; source.read(&mut buf) == answer);
        assert!(rt; buf.as_slice() == front.as_slice());
    }
    assert!(rt; source.taken() == 7);
    assert!(rt; source.faults() == 2);
    Ok(())
}

#[test]
fn a_memory_sink_cuts_and_fails_as_told(rt: HostRuntime) -> Result<(), Fail> {
    let alloc = rt.alloc();
    let mut sink = MemorySink::new(alloc, [2, 9, 0].to_vec(alloc)?, [1].to_vec(alloc)?);
    assert!(rt; sink.write(b"abc") == Ok(2));
    assert!(rt; sink.write(b"c") == Err(Failed));
    assert!(rt; sink.flush() == Ok(()));
    assert!(rt; sink.write(b"cde") == Ok(1));
    assert!(rt; sink.write(b"de") == Ok(2));
    assert!(rt; sink.write(b"") == Ok(0));
    assert!(rt; sink.gained() == b"abcde".as_slice());
    assert!(rt; sink.faults() == 1);
    Ok(())
}

#[test]
fn a_quiet_source_gives_what_fits(rt: HostRuntime) -> Result<(), Fail> {
    let mut source = QuietSource::new(b"abc".to_vec(rt.alloc())?);
    let mut buf = [0; 2];
    for (answer, front) in [(Ok(2), b"ab"), (Ok(1), b"cb"), (Ok(0), b"cb")] {
        assert!(rt; source.read(&mut buf) == answer);
        assert!(rt; buf == *front);
    }
    assert!(rt; source.faults() == 0);
    Ok(())
}

#[test]
fn a_quiet_sink_counts_its_bytes(rt: HostRuntime) {
    let mut sink = QuietSink::new();
    assert!(rt; sink.write(b"ab") == Ok(2));
    assert!(rt; sink.write(b"") == Ok(0));
    assert!(rt; sink.write(b"c") == Ok(1));
    assert!(rt; sink.flush() == Ok(()));
    assert!(rt; sink.count() == 3);
    assert!(rt; sink.faults() == 0);
}

/// A reader that writes behind the bytes that it counts and a writer that takes none, and both fail at last.
#[derive(Drop)]
struct Odd {
    calls: u8,
}

impl Read for Odd {
    fn read(&mut self, buf: &mut [u8]) -> io::Result<usize> {
        self.calls = self.calls.saturating_add(1);
        if self.calls > 1 || buf.len() < 2 {
            return Err(io::Error::from(io::ErrorKind::Other));
        }
        buf[0] = 7;
        buf[1] = 8;
        Ok(1)
    }
}

impl Write for Odd {
    fn write(&mut self, _buf: &[u8]) -> io::Result<usize> {
        self.calls = self.calls.saturating_add(1);
        if self.calls > 1 {
            return Err(io::Error::from(io::ErrorKind::Other));
        }
        Ok(0)
    }

    fn flush(&mut self) -> io::Result<()> {
        Err(io::Error::from(io::ErrorKind::Other))
    }
}

/// A reader that fails at its first call, gives nothing at its second, and then a byte at each.
#[derive(Drop)]
struct Late {
    calls: u8,
}

impl Read for Late {
    fn read(&mut self, buf: &mut [u8]) -> io::Result<usize> {
        self.calls = self.calls.saturating_add(1);
        match self.calls {
            1 => Err(io::Error::from(io::ErrorKind::Other)),
            2 => Ok(0),
            _ if buf.is_empty() => Ok(0),
            _ => {
                buf[0] = 9;
                Ok(1)
            }
        }
    }
}

// what the calls of such a reader come to
const LATE: [Result<usize, Failed>; 3] = [Err(Failed), Ok(0), Ok(1)];

#[test]
fn a_reader_is_a_source(rt: HostRuntime) {
    let mut source = ReadSource::new(b"xyz".as_slice());
    let mut buf = [0; 5];
    assert!(rt; source.read(&mut buf) == Ok(3));
    assert!(rt; buf == *b"xyz\0\0");
    assert!(rt; source.read(&mut buf) == Ok(0));
    assert!(rt; source.faults() == 0);

    let mut source = ReadSource::new(Odd { calls: 0 });
    let mut buf = [0; 2];
    assert!(rt; source.read(&mut buf) == Ok(1));
    assert!(rt; buf == [7, 0]);
    assert!(rt; source.read(&mut buf) == Err(Failed));
    assert!(rt; source.faults() == 1);

    let mut source = ReadSource::new(Late { calls: 0 });
    for answer in LATE {
        assert!(rt; source.read(&mut buf) == answer);
    }
    assert!(rt; source.faults() == 1);
}

#[test]
fn a_reader_with_a_buffer_is_a_source(rt: HostRuntime) {
    let alloc: Global = rt.alloc();
    let reader = BufReader::with_capacity(alloc, 4, b"abcdef".as_slice()).expect(&rt, "memory");
    let mut source = BufReadSource::new(reader);
    let mut buf = [0; 3];
    for (n, bytes) in [(3, b"abc"), (1, b"dbc"), (2, b"efc"), (0, b"efc")] {
        assert!(rt; source.read(&mut buf) == Ok(n));
        assert!(rt; buf == *bytes);
    }
    assert!(rt; source.faults() == 0);

    let reader = BufReader::with_capacity(alloc, 4, Odd { calls: 0 }).expect(&rt, "memory");
    let mut source = BufReadSource::new(reader);
    assert!(rt; source.read(&mut buf) == Ok(1));
    assert!(rt; buf == [7, b'f', b'c']);
    assert!(rt; source.read(&mut buf) == Err(Failed));
    assert!(rt; buf == [7, b'f', b'c']);
    assert!(rt; source.faults() == 1);

    // The buffer finds nothing, and then the read of one byte gives it.
    let reader = BufReader::with_capacity(alloc, 4, Late { calls: 0 }).expect(&rt, "memory");
    let mut source = BufReadSource::new(reader);
    for answer in [Err(Failed), Ok(1), Ok(1)] {
        assert!(rt; source.read(&mut buf) == answer);
    }
    assert!(rt; source.faults() == 1);
    let reader = BufReader::with_capacity(alloc, 4, Late { calls: 0 }).expect(&rt, "memory");
    let mut source = BufReadSource::new(reader);
    assert!(rt; source.read(&mut []) == Err(Failed));
    assert!(rt; source.faults() == 1);
}

#[test]
fn a_writer_is_a_sink(rt: HostRuntime) {
    let alloc: Global = rt.alloc();
    let mut sink = WriteSink::new(Vec::<u8>::new(alloc));
    assert!(rt; sink.write(b"ab") == Ok(2));
    assert!(rt; sink.write(b"") == Ok(0));
    assert!(rt; sink.flush() == Ok(()));
    assert!(rt; sink.faults() == 0);

    let mut sink = WriteSink::new(Odd { calls: 0 });
    assert!(rt; sink.write(b"a") == Err(Failed));
    assert!(rt; sink.write(b"") == Err(Failed));
    assert!(rt; sink.flush() == Err(Failed));
    assert!(rt; sink.faults() == 3);
}

/// Takes three bytes of those that are shown, or all where they are fewer, and keeps how many they were and what was taken.
#[derive(Drop)]
struct TakesThree {
    shown: usize,
}

impl Taker<Vec<u8>> for TakesThree {
    ghost takes = { λ _ _ _ _ _ _. ⊤ };

    fn look(&mut self, to: &mut Vec<u8>, ready: &[u8]) -> usize {
        self.shown = ready.len();
        let len = ready.len().min(3);
        if to.extend_from_slice(&ready[..len]).is_err() {
            return 0;
        }
        len
    }
}

// A source that has all its bytes at hand, and one that has four in its buffer.
#[test]
fn bytes_that_stand_ready_are_shown(rt: HostRuntime) {
    let alloc: Global = rt.alloc();
    let mut buf = [0; 8];
    let mut taker = TakesThree { shown: 0 };
    let mut to = Vec::new(alloc);
    let mut source = QuietSource::new(b"abcde".to_vec(alloc).expect(&rt, "memory"));
    for (shown, taken) in [(5, b"abc".as_slice()), (2, b"abcde"), (0, b"abcde")] {
        assert!(rt; source.show(&mut taker, &mut to) == Ok(true));
        assert!(rt; taker.shown == shown);
        assert!(rt; to.as_slice() == taken);
    }
    assert!(rt; source.read(&mut buf) == Ok(0));

    let mut to = Vec::new(alloc);
    let reader = BufReader::with_capacity(alloc, 4, b"abcdef".as_slice()).expect(&rt, "memory");
    let mut source = BufReadSource::new(reader);
    for (shown, taken) in [(4, b"abc".as_slice()), (1, b"abcd")] {
        assert!(rt; source.show(&mut taker, &mut to) == Ok(true));
        assert!(rt; taker.shown == shown);
        assert!(rt; to.as_slice() == taken);
    }
    assert!(rt; source.read(&mut buf) == Ok(2));
    assert!(rt; buf.starts_with(b"ef"));
    assert!(rt; source.show(&mut taker, &mut to) == Ok(true));
    assert!(rt; taker.shown == 0);
    assert!(rt; source.faults() == 0);
}

#[test]
fn no_bytes_are_shown(rt: HostRuntime) {
    let alloc: Global = rt.alloc();
    let mut buf = [0; 3];
    let mut taker = TakesThree { shown: 9 };
    let mut to = Vec::new(alloc);
    let bytes = b"ab".to_vec(alloc).expect(&rt, "memory");
    let mut source = MemorySource::new(bytes, Vec::new(alloc), Vec::new(alloc));
    assert!(rt; source.show(&mut taker, &mut to) == Ok(false));
    assert!(rt; source.read(&mut buf) == Ok(2));
    assert!(rt; source.faults() == 0);

    let reader = BufReader::with_capacity(alloc, 4, Odd { calls: 1 }).expect(&rt, "memory");
    let mut source = BufReadSource::new(reader);
    assert!(rt; source.show(&mut taker, &mut to) == Err(Failed));
    assert!(rt; source.faults() == 1);
    assert!(rt; taker.shown == 9);
    assert!(rt; to.as_slice() == b"".as_slice());

    let reader = BufReader::with_capacity(alloc, 4, Late { calls: 0 }).expect(&rt, "memory");
    let mut source = BufReadSource::new(reader);
    assert!(rt; source.show(&mut taker, &mut to) == Err(Failed));
    assert!(rt; source.faults() == 1);
    assert!(rt; source.show(&mut taker, &mut to) == Ok(true));
    assert!(rt; taker.shown == 0);
}

// the cuts, the call that fails, how many bytes went, and how many calls failed
const SENT: [(&[usize], u64, usize, u64); 5] = [
    (&[], 9, 6, 0),
    (&[2, 1], 9, 6, 0),
    (&[2, 1], 3, 6, 0),
    (&[2, 1], 2, 3, 1),
    (&[], 0, 0, 1),
];

#[test]
fn a_piece_is_sent_until_the_sink_fails(rt: HostRuntime) {
    let alloc: Global = rt.alloc();
    for (cuts, fail, sent, faults) in SENT {
        let cuts = cuts.to_vec(alloc).expect(&rt, "memory");
        let fails = [fail].to_vec(alloc).expect(&rt, "memory");
        let mut sink = MemorySink::new(alloc, cuts, fails);
        assert!(rt; send(&mut sink, b"abcdef") == sent);
        assert!(rt; sink.gained().len() == sent);
        assert!(rt; b"abcdef".starts_with(sink.gained()));
        assert!(rt; sink.faults() == faults);
    }
    let fails = [0].to_vec(alloc).expect(&rt, "memory");
    let mut sink = MemorySink::new(alloc, Vec::new(alloc), fails);
    assert!(rt; send(&mut sink, b"") == 0);
    assert!(rt; sink.faults() == 0);
}
