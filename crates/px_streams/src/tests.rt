use crate::{
    Failed, MemorySink, MemorySource, ReadError, Sink, Source, StdSink, StdSource, SteadySink,
    SteadySource, read_whole, write_whole,
};
use std::alloc::Global;
use std::cell::Cell;
use std::fmt::Display;
use std::io;
use std::io::{ErrorKind, Read};
use std::test::Fail;

/// A stream whose first so many calls are interrupted.
#[derive(Drop)]
struct Interrupted {
    times: Cell<u32>,
}

impl Interrupted {
    fn new(times: u32) -> Interrupted {
        Interrupted {
            times: Cell::new(times),
        }
    }

    fn call(&self) -> io::Result<usize> {
        match self.times.get() {
            0 => Ok(1),
            left => {
                self.times.set(left - 1);
                Err(ErrorKind::Interrupted.into())
            }
        }
    }
}

impl Read for Interrupted {
    fn read(&mut self, buffer: &mut [u8]) -> io::Result<usize> {
        Ok(self.call()?.min(buffer.len()))
    }
}

impl Print for Interrupted {
    fn print<D: Display + Drop>(&self, _value: D) -> io::Result<()> {
        Ok(())
    }

    fn println<D: Display + Drop>(&self, _value: D) -> io::Result<()> {
        Ok(())
    }

    fn write_all(&self, _bytes: &[u8]) -> io::Result<()> {
        Ok(())
    }

    fn write_some(&self, bytes: &[u8]) -> io::Result<usize> {
        Ok(self.call()?.min(bytes.len()))
    }
}

/// What reads with buffers of these sizes give, each with a bar after it: the bytes as text, or a
/// mark for a fault. What the source has left stands at the end.
fn reads(alloc: Global, bytes: &str, failing: &[u64], sizes: &[usize]) -> Result<String, Fail> {
    let mut source = MemorySource::new(alloc, bytes.as_bytes(), failing)?;
    let mut told = String::new(alloc);
    for size in sizes {
        let mut buffer = vec![in alloc; 0u8; *size]?;
        match source.read(buffer.as_mut_slice()) {
            Ok(count) => told.push_str(text_of(&buffer.as_slice()[..count]))?,
            Err(Failed {}) => told.push_str("!")?,
        }
        told.push_str("|")?;
    }
    told.push_str(text_of(source.left()))?;
    Ok(told)
}

/// What writes of these pieces answer, each with a bar after it: how many bytes were taken, up to
/// three, or a mark for a fault. What the sink holds stands at the end.
fn writes(alloc: Global, room: usize, failing: &[u64], pieces: &[&str]) -> Result<String, Fail> {
    let mut sink = MemorySink::new(alloc, room, failing)?;
    let mut told = String::new(alloc);
    for piece in pieces {
        told.push_str(match sink.write(piece.as_bytes()) {
            Ok(0) => "0|",
            Ok(1) => "1|",
            Ok(2) => "2|",
            Ok(_) => "3|",
            Err(Failed {}) => "!|",
        })?;
    }
    told.push_str(text_of(sink.contents()))?;
    Ok(told)
}

fn text_of(bytes: &[u8]) -> &str {
    str::from_utf8(bytes).unwrap_or("?")
}

#[test]
fn reads_give_what_the_buffer_holds(rt: HostRuntime) -> Result<(), Fail> {
    let alloc = rt.alloc();
    assert_eq!(rt;
        reads(alloc, "abcde", &[], &[2, 1, 4, 4])?.as_str(),
        "ab|c|de||"
    );
    assert_eq!(rt; reads(alloc, "abc", &[], &[0, 2, 0])?.as_str(), "|ab||c");
    assert_eq!(rt; reads(alloc, "", &[], &[1])?.as_str(), "|");
    Ok(())
}

// A read that fails has its number as any other, and takes nothing.
#[test]
fn the_listed_reads_fail(rt: HostRuntime) -> Result<(), Fail> {
    let alloc = rt.alloc();
    assert_eq!(rt; reads(alloc, "abc", &[0], &[2, 2, 2])?.as_str(), "!|ab|c|");
    assert_eq!(rt;
        reads(alloc, "abcd", &[3, 1, 1], &[1, 1, 1, 1])?.as_str(),
        "a|!|b|!|cd"
    );
    assert_eq!(rt;
        reads(alloc, "ab", &[18446744073709551615], &[1])?.as_str(),
        "a|b"
    );
    Ok(())
}

#[test]
fn writes_take_what_fits(rt: HostRuntime) -> Result<(), Fail> {
    let alloc = rt.alloc();
    assert_eq!(rt;
        writes(alloc, 4, &[], &["ab", "cde", "f"])?.as_str(),
        "2|2|!|abcd"
    );
    assert_eq!(rt; writes(alloc, 0, &[], &["", "a", ""])?.as_str(), "0|!|0|");
    assert_eq!(rt; writes(alloc, 3, &[], &["abc"])?.as_str(), "3|abc");
    Ok(())
}

// A write that fails has its number as any other, and puts nothing.
#[test]
fn the_listed_writes_fail(rt: HostRuntime) -> Result<(), Fail> {
    let alloc = rt.alloc();
    assert_eq!(rt;
        writes(alloc, 9, &[0, 2], &["ab", "ab", "c", ""])?.as_str(),
        "!|2|!|0|ab"
    );
    assert_eq!(rt;
        writes(alloc, 2, &[2], &["abc", "d", "", "e"])?.as_str(),
        "2|!|!|!|ab"
    );
    Ok(())
}

// What came before a fault is kept.
#[test]
fn the_loops_stop_at_a_fault(rt: HostRuntime) -> Result<(), Fail> {
    let alloc = rt.alloc();
    let mut source = MemorySource::new(alloc, b"abc", &[1])?;
    assert!(rt; matches!(read_whole(alloc, &mut source), Err(ReadError::ReadFault)));
    assert_eq!(rt; source.left().len(), 0);
    let mut sink = MemorySink::new(alloc, 2, &[])?;
    assert!(rt; write_whole(&mut sink, b"abc").is_err());
    assert_eq!(rt; sink.contents(), b"ab".as_slice());
    Ok(())
}

#[test]
fn what_is_steady_gives_and_takes_all(rt: HostRuntime) -> Result<(), Fail> {
    let alloc = rt.alloc();
    let mut source = SteadySource::new(alloc, b"abc")?;
    let mut buffer = [0; 2];
    assert_eq!(rt; source.read(&mut buffer).ok(), Some(2));
    assert_eq!(rt; buffer.as_slice(), b"ab".as_slice());
    let bytes = read_whole(alloc, &mut source)?;
    assert_eq!(rt; bytes.as_slice(), b"c".as_slice());
    assert!(rt; write_whole(&mut SteadySink::new(), b"abc").is_ok());
    Ok(())
}

#[test]
fn what_is_interrupted_is_tried_again(rt: HostRuntime) -> Result<(), Fail> {
    for times in [0, 1, 1023] {
        let mut source = StdSource::new(Interrupted::new(times));
        assert_eq!(rt; source.read(&mut [0; 2]).ok(), Some(1));
        let mut sink = StdSink::new(Interrupted::new(times));
        assert_eq!(rt; sink.write(b"ab").ok(), Some(1));
    }
    assert!(rt;
        StdSource::new(Interrupted::new(1024))
            .read(&mut [0; 2])
            .is_err()
    );
    assert!(rt; StdSink::new(Interrupted::new(1024)).write(b"ab").is_err());
    Ok(())
}

#[test]
fn a_fault_prints_its_text(rt: HostRuntime) -> Result<(), Fail> {
    let text = Failed {}.to_string(rt.alloc())?;
    assert_eq!(rt; text.as_str(), "failed");
    Ok(())
}
