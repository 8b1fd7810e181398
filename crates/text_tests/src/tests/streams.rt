//! Sinks that take few bytes or fail, and the adapters over readers and writers of std.

use super::NO_MEMORY;
use io_core::{MemorySink, RealSink, RealSource, Sink, Source, WriteFailed};
use std::alloc::Global;
use std::io;
use std::io::{Cursor, ErrorKind, Read, Write};
use std::process::Abort;

/// An empty sink of at most `limit` bytes, which fails at one write; none is write 0.
pub(super) fn sink_of(rt: &impl Abort, alloc: Global, limit: usize, failing: u64) -> MemorySink {
    let room = Vec::with_capacity(alloc, limit).expect(rt, NO_MEMORY);
    let failing = [failing].to_vec(alloc).expect(rt, NO_MEMORY);
    MemorySink::of(room, limit, failing)
}

/// A sink in memory that takes at most 16 bytes a write.
#[derive(Drop)]
pub(super) struct Slow {
    sink: MemorySink,
}

impl Slow {
    pub(super) fn of(sink: MemorySink) -> Slow {
        Slow { sink }
    }

    pub(super) fn bytes(&self) -> &[u8] {
        self.sink.bytes()
    }
}

impl Sink for Slow {
    ghost use Rattle.std.specs.Prelude.{Some};

    ghost taken = { λ s. Some s.sink.taken };

    ghost writes = { λ s. s.sink.writes };

    ghost faults = { λ s. s.sink.faults };

    fn write(&mut self, piece: &[u8]) -> Result<usize, WriteFailed> {
        self.sink.write(&piece[..piece.len().min(16)])
    }
}

/// How many bytes of a reader of five three reads give, and the bytes, behind them zeros. None where a read failed.
fn given() -> ([Option<usize>; 3], [u8; 8]) {
    let mut into = [0u8; 8];
    let mut source = RealSource::of(Cursor::new(b"abcde"));
    let first = source.read(&mut into[..4]).ok();
    let second = source.read(&mut into[4..]).ok();
    let third = source.read(&mut into[5..]).ok();
    ([first, second, third], into)
}

#[test]
fn passes_on_what_a_reader_gives(rt: HostRuntime) {
    assert!(rt; given() == ([Some(4), Some(1), Some(0)], *b"abcde\0\0\0"));
}

/// How many bytes of three pieces a writer of three bytes takes, and what it has then. None where it failed.
fn taken() -> ([Option<usize>; 3], [u8; 3]) {
    let mut written = [0u8; 3];
    let mut sink = RealSink::of(&mut written[..]);
    let first = sink.write(b"ab").ok();
    let second = sink.write(b"cd").ok();
    let third = sink.write(b"d").ok();
    ([first, second, third], written)
}

#[test]
fn passes_on_what_a_writer_takes(rt: HostRuntime) {
    // A writer that takes no byte has failed.
    assert!(rt; taken() == ([Some(2), Some(1), None], *b"abc"));
}

/// A stream that is closed.
#[derive(Drop)]
struct Closed;

impl Read for Closed {
    fn read(&mut self, _buf: &mut [u8]) -> io::Result<usize> {
        Err(ErrorKind::BrokenPipe.into())
    }
}

impl Write for Closed {
    fn write(&mut self, _buf: &[u8]) -> io::Result<usize> {
        Err(ErrorKind::BrokenPipe.into())
    }

    fn flush(&mut self) -> io::Result<()> {
        Ok(())
    }
}

/// Whether a read and a write of it fail.
fn fails_at_each_call() -> bool {
    let mut into = [0; 4];
    RealSource::of(Closed).read(&mut into).is_err() && RealSink::of(Closed).write(b"a").is_err()
}

#[test]
fn a_closed_stream_fails_at_each_call(rt: HostRuntime) {
    assert!(rt; fails_at_each_call());
}
