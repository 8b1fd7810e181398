//! Readers and writers of std as a source and a sink.
//!
//! What these pass on is trusted: no clause tells the bytes.
ghost use Rattle.std.specs.Prelude.{◌≡◌, None};

use super::reading::{ReadFailed, Source};
use super::writing::{Sink, WriteFailed};
use std::io::{Read, Write};
use std::marker::Model;

/// A reader of std, as a program's standard input. It tells none of its bytes.
#[derive(Drop)]
pub struct RealSource<R> {
    reader: R,
    reads: u64,
    faults: u64,
}

impl<R> Model for RealSource<R> {
    ghost use Rattle.std.specs.Prelude.{◌-◌, ◌^◌, ◌≤◌};
    ghost use Rattle.io_core.specs.RealSource.{ReaderState};

    ghost Value = { ReaderState };

    ghost view = { λ s. record { reads = s.reads; faults = s.faults } };

    ghost invariant = { λ s. s.faults ≤ 2 ^ 64 - 1 };
}

impl<R: Read> RealSource<R> {
    /// A source of what `reader` reads, with no read and no fault so far.
    pub fn of(reader: R) -> RealSource<R>
        ensures new { result ≡ record { reads = 0; faults = 0 } }
    {
        RealSource {
            reader,
            reads: 0,
            faults: 0,
        }
    }
}

impl<R: Read> Source for RealSource<R> {
    ghost left = { λ _. None };

    ghost reads = { λ s. s.reads };

    ghost faults = { λ s. s.faults };

    fn read(&mut self, into: &mut [u8]) -> Result<usize, ReadFailed> {
        self.reads = self.reads.saturating_add(1);
        match self.reader.read(into) {
            Ok(n) => Ok(n),
            Err(_) => {
                self.faults = self.faults.saturating_add(1);
                Err(ReadFailed)
            }
        }
    }
}

/// A writer of std that keeps no buffer, as a program's standard output. It tells none of its bytes.
#[derive(Drop)]
pub struct RealSink<W> {
    writer: W,
    writes: u64,
    faults: u64,
}

impl<W> Model for RealSink<W> {
    ghost use Rattle.std.specs.Prelude.{◌-◌, ◌^◌, ◌≤◌};
    ghost use Rattle.io_core.specs.RealSink.{WriterState};

    ghost Value = { WriterState };

    ghost view = { λ s. record { writes = s.writes; faults = s.faults } };

    ghost invariant = { λ s. s.faults ≤ 2 ^ 64 - 1 };
}

impl<W: Write> RealSink<W> {
    /// A sink to what `writer` writes to, with no write and no fault so far.
    pub fn of(writer: W) -> RealSink<W>
        ensures new { result ≡ record { writes = 0; faults = 0 } }
    {
        RealSink {
            writer,
            writes: 0,
            faults: 0,
        }
    }
}

impl<W: Write> Sink for RealSink<W> {
    ghost taken = { λ _. None };

    ghost writes = { λ s. s.writes };

    ghost faults = { λ s. s.faults };

    fn write(&mut self, piece: &[u8]) -> Result<usize, WriteFailed> {
        self.writes = self.writes.saturating_add(1);
        match self.writer.write(piece) {
            Ok(n) if n > 0 || piece.is_empty() => Ok(n),
            // A writer that takes none of the bytes has failed too.
            _ => {
                self.faults = self.faults.saturating_add(1);
                Err(WriteFailed)
            }
        }
    }
}
