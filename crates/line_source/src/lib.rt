//! The lines of a source, one at a time, in constant memory.
//!
//! `Ahead` keeps the bytes that were read and not passed yet. `look` reads until a whole line stands at their front, `front` shows it where it
//! stands, and `pass` goes on behind it. No byte is copied but to make room for the rest of a line.
#![tactic(auto)]

ghost use Rattle.std.specs.Prelude.{◌≡◌, ◌↔◌, ◌+◌, ◌-◌, ◌<◌, ◌≤◌, List, [], IfNone, IfOk, IfSome, IsTrue, Some, length, take, drop, OnErr};
ghost use Rattle.io_core.specs.Faults.{one_more};
ghost use Rattle.line_source.specs.Lines.{IsLineAt, IsNext, HasNoFeed, seen};

use io_core::{ReadFailed, Source};
use memchr::memchr;
use std::marker::Model;

/// How many bytes are kept at most. No line has so many: with its line feed it has at most as many.
const PIECE: usize = 4096;

/// The most bytes that a line has, without its line feed.
pub const LONGEST: usize = PIECE - 1;

/// What stands at the front of the bytes that are to come.
#[derive(Clone, Copy, Debug, PartialEq, Eq)]
pub enum Next {
    /// A line of so many bytes, and behind it its line feed.
    Line(usize),
    /// More bytes than a line may have, none of them a line feed.
    Long,
    /// So many bytes, none of them a line feed, and the source has no more.
    Rest(usize),
}

/// The bytes of a source that were read and not passed yet.
#[derive(Drop)]
pub struct Ahead {
    bytes: [u8; PIECE],
    from: usize,
    to: usize,
}

impl Model for Ahead {
    ghost use Rattle.std.specs.Prelude.{ℕ, ◌≤◌, List, drop, take};

    ghost Value = { List ℕ };

    ghost view = { λ a. drop a.from (take a.to a.bytes) };

    ghost invariant = { λ a. (a.from ≤ a.to) × (a.to ≤ 4096) };
}

impl Ahead {
    /// No byte.
    pub fn new() -> Ahead
        ensures { result ≡ [] }
    {
        Ahead {
            bytes: [0; PIECE],
            from: 0,
            to: 0,
        }
    }

    /// Reads until a whole line is there, or more bytes than one has, or the source has no more. It is proved to return, whatever the source has:
    /// each read gives a byte at least or is the last, and none follows one that failed.
    pub fn look<T: Source>(&mut self, source: &mut T) -> Result<Next, ReadFailed>
        ensures next { IfOk result (λ next. IsNext next self.new (T.left source.old) (T.left source.new)) }

        // Where the source tells its bytes none is lost, also where a read failed.
        ensures same { IfSome (T.left source.old) (λ left. seen self.new (T.left source.new) ≡ seen self.old (T.left source.old)) }
        ensures few { length self.new ≤ 4096 }
        ensures unfailed { IfOk result (λ _. T.faults source.new ≡ T.faults source.old) }
        ensures rose { OnErr result (T.faults source.new ≡ one_more (T.faults source.old)) }

        // A read was made only where no line was there, and room was.
        ensures no_line { OnErr result (HasNoFeed self.new) }
        ensures room { OnErr result (length self.new ≤ 4095) }
    {
        if let Some(line) = self.line_behind(0) {
            return Ok(Next::Line(line));
        }
        'reads: loop {
            let searched = self.len();
            if searched == PIECE {
                return Ok(Next::Long);
            }
            if self.fill(source)? == 0 {
                return Ok(Next::Rest(searched));
            }
            if let Some(line) = self.line_behind(searched) {
                return Ok(Next::Line(line));
            }
        }
    }

    /// So many of the bytes, from the front.
    pub fn front(&self, count: usize) -> &[u8]
        requires { count ≤ length self.now }
        ensures { result.now ≡ take count self.now }
    {
        &self.bytes[self.from..self.from + count]
    }

    /// Goes on behind so many of the bytes.
    pub fn pass(&mut self, count: usize)
        requires { count ≤ length self.old }
        ensures { self.new ≡ drop count self.old }
    {
        self.from += count;
    }

    /// Whether no byte is there.
    pub fn is_empty(&self) -> bool
        ensures { IsTrue result ↔ (self.now ≡ []) }
    {
        self.len() == 0
    }

    /// How many bytes there are.
    fn len(&self) -> usize
        ensures length { result ≡ length self.now }
        ensures most { result ≤ 4096 }
    {
        self.to - self.from
    }

    /// How many bytes the line at the front has, where so many were searched for its line feed.
    fn line_behind(&self, searched: usize) -> Option<usize>
        requires within { searched ≤ length self.now }
        requires none_yet { HasNoFeed (take searched self.now) }
        ensures some { IfSome result (λ n. IsLineAt n self.now) }
        ensures none { IfNone result (HasNoFeed self.now) }
        ensures few { length self.now ≤ 4096 }
    {
        let at = memchr(b'\n', &self.bytes[self.from + searched..self.to])?;
        Some(searched + at)
    }

    /// Reads more behind the bytes that are there, where there is room, and answers how many came: none only where the source has none left.
    fn fill<T: Source>(&mut self, source: &mut T) -> Result<usize, ReadFailed>
        requires room { length self.old < 4096 }
        ensures kept { IfOk result (λ n. take (length self.old) self.new ≡ self.old) }
        ensures count { IfOk result (λ n. length self.new ≡ length self.old + n) }
        ensures same { IfSome (T.left source.old) (λ left. seen self.new (T.left source.new) ≡ seen self.old (T.left source.old)) }
        ensures end { IfOk result (λ n. n ≡ 0 → IfSome (T.left source.old) (λ _. T.left source.new ≡ Some [])) }
        ensures unfailed { IfOk result (λ _. T.faults source.new ≡ T.faults source.old) }
        ensures rose { OnErr result (T.faults source.new ≡ one_more (T.faults source.old)) }
        ensures unread { OnErr result (self.new ≡ self.old) }
    {
        move_to_front(&mut self.bytes, self.from, self.to);
        self.to -= self.from;
        self.from = 0;
        let n = source.read(&mut self.bytes[self.to..])?;
        self.to += n;
        Ok(n)
    }
}

/// Moves the bytes from one place up to another to the front.
fn move_to_front(bytes: &mut [u8], from: usize, to: usize)
    requires order { from ≤ to }
    requires within { to ≤ length bytes.old }
    ensures moved { take (to - from) bytes.new ≡ drop from (take to bytes.old) }
    ensures len { length bytes.new ≡ length bytes.old }
{
    if from > 0 {
        bytes.copy_within(from..to, 0);
    }
}
