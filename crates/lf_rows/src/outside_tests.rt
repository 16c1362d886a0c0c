//! What is moved from sources and to sinks, and where it stops.

use lf_outside::{
    Failed, MemSink, MemSource, ReadSource, ReadStop, Source, WriteSink, read_all, write_all,
};
use std::test::Fail;

const TEXT: &[u8] = b"a script of some bytes";

/// A source of zeros, which notes the longest and the shortest buffer.
#[derive(Drop)]
struct Zeros {
    left: usize,
    longest: usize,
    shortest: usize,
}

impl Source for Zeros {
    ghost use Rattle.std.specs.Prelude.{None};

    ghost left = { λ _. None };

    ghost faults = { λ _. 0 };

    fn read(&mut self, buffer: &mut [u8]) -> Result<usize, Failed> {
        self.longest = self.longest.max(buffer.len());
        self.shortest = self.shortest.min(buffer.len());
        let count = self.left.min(buffer.len());
        self.left -= count;
        Ok(count)
    }
}

#[test]
fn asks_for_pieces_of_some_tens_of_kib(rt: HostRuntime) -> Result<(), Fail> {
    let mut source = Zeros {
        left: 200_000,
        longest: 0,
        shortest: 1_000_000,
    };
    let bytes = read_all(rt.alloc(), &mut source, 1_000_000);
    assert_eq!(rt; bytes.map(|b| b.len()).unwrap_or(0), 200_000);
    assert_eq!(rt; (source.longest, source.shortest), (65_536, 65_536));
    Ok(())
}

#[test]
fn reads_and_writes_in_short_moves(rt: HostRuntime) -> Result<(), Fail> {
    for most in [1, 3, 22, 100] {
        let mut source = MemSource::new(rt.alloc(), TEXT, most, &[])?;
        let bytes = read_all(rt.alloc(), &mut source, 22).map_err(|_| "a stop")?;
        assert!(rt; bytes.as_slice() == TEXT, "at most {most}");
        let mut sink = MemSink::new(rt.alloc(), 30, most, &[])?;
        assert!(rt; write_all(&mut sink, bytes.as_slice()).is_ok());
        assert!(rt; sink.bytes() == TEXT, "at most {most}");
    }
    Ok(())
}

#[test]
fn stops_where_it_must(rt: HostRuntime) -> Result<(), Fail> {
    for (most_bytes, failing, stop) in [
        (21, 9, ReadStop::TooLong),
        (22, 2, ReadStop::Fault),
        (22, 5, ReadStop::Fault),
    ] {
        let mut source = MemSource::new(rt.alloc(), TEXT, 5, &[failing])?;
        let answer = read_all(rt.alloc(), &mut source, most_bytes);
        assert_eq!(rt; answer.err(), Some(stop));
    }
    let mut full = MemSink::new(rt.alloc(), 10, 4, &[])?;
    assert!(rt; write_all(&mut full, TEXT).is_err());
    assert!(rt; full.bytes() == &TEXT[..10]);
    let mut failing = MemSink::new(rt.alloc(), 30, 4, &[2])?;
    assert!(rt; write_all(&mut failing, TEXT).is_err());
    assert!(rt; failing.bytes() == &TEXT[..8]);
    Ok(())
}

#[test]
fn adapts_readers_and_writers(rt: HostRuntime) -> Result<(), Fail> {
    let mut source = ReadSource::new(TEXT);
    let bytes = read_all(rt.alloc(), &mut source, 100).map_err(|_| "a stop")?;
    assert!(rt; bytes.as_slice() == TEXT);
    let mut held = Vec::new(rt.alloc());
    {
        let mut sink = WriteSink::new(&mut held);
        assert!(rt; write_all(&mut sink, TEXT).is_ok());
    }
    assert!(rt; held.as_slice() == TEXT);
    let mut room = [0u8; 10];
    let mut short = WriteSink::new(room.as_mut_slice());
    assert!(rt; write_all(&mut short, TEXT).is_err());
    Ok(())
}
