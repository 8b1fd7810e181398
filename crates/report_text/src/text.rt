//! Text as it is written.

ghost use Rattle.std.specs.Prelude.{◌≡◌, ◌↔◌, ◌+◌, ◌*◌, ◌<◌, ◌≤◌, [], ◌∷◌, ◌++◌, IsTrue, decimal, length, map, Some};
ghost use Rattle.pager_model.specs.PrintedText.{part_word};
ghost use Rattle.report_text.specs.Lines.{Adds, Gains, GrowsBy, HasRoom};

use itoa::Buffer;
use std::marker::Model;

/// How many bytes a text has at most.
pub const SIZE: usize = 4096;

/// No line is longer.
pub const LONGEST: usize = 256;

/// Lines, one behind the other, and the words of the last one: its first, and others with a space before each.
#[derive(Drop)]
pub struct Text {
    bytes: [u8; SIZE],
    len: usize,
}

impl Model for Text {
    ghost use Rattle.std.specs.Prelude.{◌≤◌, take};
    ghost use Rattle.report_text.specs.Bytes.{Bytes};

    ghost Value = { Bytes };

    ghost view = { λ t. record { items = take t.len t.bytes } };

    ghost invariant = { λ t. t.len ≤ 4096 };
}

impl Text {
    /// No byte.
    pub fn new() -> Text
        ensures { result.items ≡ [] }
    {
        Text {
            bytes: [0; SIZE],
            len: 0,
        }
    }

    /// The bytes.
    pub fn as_bytes(&self) -> &[u8]
        ensures text { result.now ≡ self.now.items }
        ensures short { length result.now ≤ SIZE }
    {
        &self.bytes[..self.len]
    }

    /// Whether there is room for so many bytes more.
    pub fn has_room(&self, more: usize) -> bool
        requires { more ≤ SIZE }
        ensures { IsTrue result ↔ HasRoom more self.now }
    {
        self.len <= SIZE - more
    }

    /// Takes all bytes out.
    pub fn clear(&mut self)
        ensures { self.new.items ≡ [] }
    {
        self.len = 0;
    }

    /// Puts bytes.
    pub fn put(&mut self, bytes: &[u8])
        requires { HasRoom (length bytes.now) self.old }
        ensures { Gains bytes.now self.old self.new }
    {
        let end = self.len + bytes.len();
        self.bytes[self.len..end].copy_from_slice(bytes);
        self.len = end;
    }

    /// Puts a byte.
    fn put_byte(&mut self, byte: u8)
        requires { HasRoom 1 self.old }
        ensures { Gains (byte ∷ []) self.old self.new }
    {
        self.bytes[self.len] = byte;
        self.len += 1;
    }

    /// Puts a name, with which a line begins.
    pub fn put_name(&mut self, name: &str)
        requires { HasRoom (length name.now) self.old }
        ensures { Gains name.now self.old self.new }
    {
        self.put(name.as_bytes());
    }

    /// Puts a number, with which a line begins.
    pub fn put_number(&mut self, number: u64)
        requires { HasRoom 20 self.old }
        ensures text { Gains (decimal number) self.old self.new }
        ensures short { GrowsBy 20 self.old self.new }
    {
        if number < 10 {
            self.put_digit(number as u8);
        } else {
            let mut buffer = Buffer::new();
            self.put_name(buffer.format(number));
        }
    }

    /// Puts a number of one digit, as most numbers of processors, spaces and sizes are.
    fn put_digit(&mut self, digit: u8)
        requires digit { digit < 10 }
        requires room { HasRoom 1 self.old }
        ensures text { Gains (decimal digit) self.old self.new }
        ensures short { GrowsBy 1 self.old self.new }
    {
        self.put_byte(b'0' + digit);
    }

    /// Adds a name.
    pub fn add_name(&mut self, name: &str)
        requires { HasRoom (1 + length name.now) self.old }
        ensures text { Adds (name.now ∷ []) self.old self.new }
        ensures short { GrowsBy (1 + length name.now) self.old self.new }
    {
        self.put_byte(b' ');
        self.put_name(name);
    }

    /// Adds a number.
    pub fn add_number(&mut self, number: u64)
        requires { HasRoom 21 self.old }
        ensures text { Adds (decimal number ∷ []) self.old self.new }
        ensures short { GrowsBy 21 self.old self.new }
    {
        self.put_byte(b' ');
        self.put_number(number);
    }

    /// Adds numbers of 32 bits, as counts, frames and pages are.
    pub fn add_counts(&mut self, counts: &[u32])
        requires { HasRoom (21 * length counts.now) self.old }
        ensures text { Adds (map decimal counts.now) self.old self.new }
        ensures short { GrowsBy (21 * length counts.now) self.old self.new }
    {
        for count in counts {
            self.add_number(u64::from(*count));
        }
    }

    /// Adds a name and counts.
    pub fn add(&mut self, name: &str, counts: &[u32])
        requires { HasRoom (1 + length name.now + 21 * length counts.now) self.old }
        ensures text { Adds (name.now ∷ map decimal counts.now) self.old self.new }
        ensures short { GrowsBy (1 + length name.now + 21 * length counts.now) self.old self.new }
    {
        self.add_name(name);
        self.add_counts(counts);
    }

    /// Adds the parts that an entry names: a space, the frames, or both.
    pub fn add_parts(&mut self, space: Option<u32>, frames: bool)
        requires { HasRoom 24 self.old }
        ensures text { Adds (part_word space frames ∷ []) self.old self.new }
        ensures short { GrowsBy 24 self.old self.new }
    {
        match space {
            None => self.add_name("f"),
            Some(space) => self.add_space(space, frames),
        }
    }

    /// Adds a space, and the frames where they are named too.
    fn add_space(&mut self, space: u32, frames: bool)
        requires { HasRoom 24 self.old }
        ensures text { Adds (part_word (Some space) frames ∷ []) self.old self.new }
        ensures short { GrowsBy 24 self.old self.new }
    {
        self.add_name("s");
        self.put_number(u64::from(space));
        if frames {
            self.put(b"+f");
        }
    }

    /// Ends the line.
    pub fn end(&mut self)
        requires { HasRoom 1 self.old }
        ensures { Gains (10 ∷ []) self.old self.new }
    {
        self.put_byte(b'\n');
    }
}
