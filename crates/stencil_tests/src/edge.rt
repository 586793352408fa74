//! Shelves, sinks, and what stands between them and the system.

use part_io::{
    Failed, FileShelf, MemShelf, MemSink, NoteSink, OutSink, ReadAnswer, Shelf, Sink, SteadyShelf,
    SteadySink, bytes_to_end,
};
use std::alloc::Global;
use std::io::{self, ErrorKind, Read, Write};
use std::test::Fail;

/// What a shelf answers to a read.
fn answer_of<S: Shelf>(
    shelf: &mut S,
    alloc: Global,
    name: &str,
    limit: u32,
) -> Result<Vec<u8>, ReadAnswer> {
    shelf.read(alloc, name, limit)
}

#[test]
fn a_shelf_gives_what_was_put(rt: HostRuntime) -> Result<(), Fail> {
    let alloc = rt.alloc();
    let mut steady = SteadyShelf::new(alloc);
    steady.put("rows", b"old")?;
    steady.put("others", b"xy")?;
    steady.put("rows", b"newer")?;
    let newer = answer_of(&mut steady, alloc, "rows", 5)?;
    assert_eq!(rt; newer.as_slice(), b"newer".as_slice());
    for (name, limit, answer) in [
        ("others", 2, None),
        ("rows", 4, Some(ReadAnswer::TooLong { limit: 4 })),
        ("row", 4, Some(ReadAnswer::Missing)),
    ] {
        assert_eq!(rt; answer_of(&mut steady, alloc, name, limit).err(), answer);
    }
    Ok(())
}

#[test]
fn chosen_reads_fail(rt: HostRuntime) -> Result<(), Fail> {
    let alloc = rt.alloc();
    let mut shelf = MemShelf::new(alloc, Vec::from_slice(alloc, &[1, 3])?);
    shelf.put("rows", b"1,2")?;
    for (name, answer, faults) in [
        ("rows", None, 0),
        ("rows", Some(ReadAnswer::Failed), 1),
        ("row", Some(ReadAnswer::Missing), 1),
        ("rows", Some(ReadAnswer::Failed), 2),
        ("rows", None, 2),
    ] {
        let got = answer_of(&mut shelf, alloc, name, 3).err();
        assert_eq!(rt; (got, shelf.faults()), (answer, faults));
    }
    assert_eq!(rt; shelf.reads(), 5);
    Ok(())
}

#[test]
fn a_sink_takes_what_fits(rt: HostRuntime) -> Result<(), Fail> {
    let mut sink = SteadySink::new(rt.alloc(), 5)?;
    for (piece, answer, left, faults) in [
        ("abc", Ok(()), 2, 0),
        ("def", Err(Failed), 0, 1),
        ("", Ok(()), 0, 1),
    ] {
        let got = sink.write(piece.as_bytes());
        assert_eq!(rt;
            (got, sink.room_left(), sink.faults()),
            (answer, left, faults)
        );
    }
    assert_eq!(rt; sink.bytes(), b"abcde".as_slice());
    Ok(())
}

#[test]
fn chosen_writes_fail(rt: HostRuntime) -> Result<(), Fail> {
    let alloc = rt.alloc();
    let mut sink = MemSink::new(alloc, 5, Vec::from_slice(alloc, &[0, 2])?)?;
    for (piece, answer, faults) in [
        ("ab", Err(Failed), 1),
        ("ab", Ok(()), 1),
        ("cd", Err(Failed), 2),
        ("cdef", Err(Failed), 3),
        ("", Ok(()), 3),
    ] {
        let got = sink.write(piece.as_bytes());
        assert_eq!(rt; (got, sink.faults()), (answer, faults));
    }
    assert_eq!(rt; sink.bytes(), b"abcde".as_slice());
    assert_eq!(rt; sink.writes(), 5);
    Ok(())
}

#[test]
fn a_file_is_read_within_its_limit(rt: HostRuntime) -> Result<(), Fail> {
    let alloc = rt.alloc();
    std::fs::write(&rt, "stencil_tests_file", b"five!".as_slice())?;
    let mut shelf = FileShelf::new(&rt);
    let whole = answer_of(&mut shelf, alloc, "stencil_tests_file", 5)?;
    assert_eq!(rt; whole.as_slice(), b"five!".as_slice());
    let long = answer_of(&mut shelf, alloc, "stencil_tests_file", 4).err();
    std::fs::remove_file(&rt, "stencil_tests_file")?;
    assert_eq!(rt;
        (long, shelf.faults()),
        (Some(ReadAnswer::TooLong { limit: 4 }), 0)
    );
    let gone = answer_of(&mut shelf, alloc, "stencil_tests_file", 5).err();
    assert_eq!(rt; (gone, shelf.faults()), (Some(ReadAnswer::Failed), 1));
    Ok(())
}

/// A reader of so many bytes that gives at most `block` a call, is interrupted at its second, and fails where it has
/// none left and doesn't end.
#[derive(Drop)]
struct Drip {
    calls: u8,
    left: usize,
    block: usize,
    ends: bool,
}

impl Read for Drip {
    fn read(&mut self, buf: &mut [u8]) -> io::Result<usize> {
        self.calls = self.calls.saturating_add(1);
        if self.calls == 2 {
            return Err(io::Error::from(ErrorKind::Interrupted));
        }
        if self.left == 0 && !self.ends {
            return Err(io::Error::other("gone"));
        }
        let count = self.left.min(self.block).min(buf.len());
        self.left -= count;
        for byte in &mut buf[..count] {
            *byte = self.calls;
        }
        Ok(count)
    }
}

#[test]
fn a_reader_is_read_to_its_end_or_a_byte_past_the_limit(rt: HostRuntime) {
    let too_long = ReadAnswer::TooLong { limit: 4 };
    for (left, block, ends, answer, rest) in [
        (4, 1, true, None, 0),
        (4, 99, true, None, 0),
        (9, 1, true, Some(too_long), 4),
        (9, 99, true, Some(too_long), 4),
        (5, 3, true, Some(too_long), 0),
        (0, 9, true, None, 0),
        (3, 2, false, Some(ReadAnswer::Failed), 0),
    ] {
        let mut drip = Drip {
            calls: 0,
            left,
            block,
            ends,
        };
        let got = bytes_to_end(&mut drip, rt.alloc(), 4).err();
        assert_eq!(rt;
            (got, drip.left),
            (answer, rest),
            "{left} bytes in blocks of {block}"
        );
    }
}

#[test]
fn the_bytes_of_a_reader_come_in_order(rt: HostRuntime) -> Result<(), Fail> {
    let mut drip = Drip {
        calls: 0,
        left: 4,
        block: 1,
        ends: true,
    };
    let bytes = bytes_to_end(&mut drip, rt.alloc(), 4)?;
    assert_eq!(rt; bytes.as_slice(), [1, 3, 4, 5].as_slice());
    Ok(())
}

/// Takes two bytes at a time and is interrupted once; after six bytes it takes no more.
#[derive(Drop)]
struct NarrowWriter {
    taken: usize,
    interrupted: bool,
}

impl Write for NarrowWriter {
    fn write(&mut self, buf: &[u8]) -> io::Result<usize> {
        if self.taken == 2 && !self.interrupted {
            self.interrupted = true;
            return Err(io::Error::from(ErrorKind::Interrupted));
        }
        if self.taken >= 6 {
            return Ok(0);
        }
        let count = buf.len().min(2);
        self.taken = self.taken.saturating_add(count);
        Ok(count)
    }

    fn flush(&mut self) -> io::Result<()> {
        Ok(())
    }
}

/// A writer that has taken so many bytes.
fn narrow(taken: usize) -> NarrowWriter {
    NarrowWriter {
        taken,
        interrupted: false,
    }
}

#[test]
fn a_piece_goes_out_in_parts_or_is_counted(rt: HostRuntime) {
    for (taken, piece, answer, faults) in [
        (0, "12345", Ok(()), 0),
        (0, "1234567", Err(Failed), 1),
        (6, "1", Err(Failed), 1),
        (6, "", Ok(()), 0),
    ] {
        let mut out = OutSink::new(narrow(taken));
        let mut note = NoteSink::new(narrow(taken));
        let got = (out.write(piece.as_bytes()), note.write(piece.as_bytes()));
        assert_eq!(rt;
            (got, out.faults(), note.faults()),
            ((answer, answer), faults, faults)
        );
    }
}

#[test]
fn a_line_goes_out_to_both_streams(rt: HostRuntime) -> Result<(), Fail> {
    OutSink::new(rt.stdout()).write(b"out\n")?;
    NoteSink::new(rt.stderr()).write(b"note\n")?;
    Ok(())
}
