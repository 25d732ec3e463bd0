// A line that is put together before it is written, so that a line of up to some 4000 bytes is one write.
ghost use Rattle.std.specs.Prelude.{◌≡◌, ◌≤◌, ◌+◌, ◌++◌, [], length, codes, decimal};
ghost use Rattle.nl_print.specs.Texts.{then_number, field, share};

use arrayvec::ArrayVec;
use itoa::Buffer;
use std::marker::Model;

/// Up to 4096 bytes of a line.
#[derive(Drop)]
pub struct LineBuf {
    bytes: ArrayVec<u8, 4096>,
}

impl Model for LineBuf {
    ghost use Rattle.std.specs.Prelude.{List, ℕ};

    ghost Value = { List ℕ };

    ghost view = { λ l. l.bytes.items };
}

impl LineBuf {
    /// An empty line.
    pub fn new() -> LineBuf
        ensures { result ≡ [] }
    {
        LineBuf {
            bytes: ArrayVec::new(),
        }
    }

    /// Adds bytes at the end, up to 4096 bytes in all.
    pub fn push(&mut self, bytes: &[u8])
        requires { length self.old + length bytes.now ≤ 4096 }
        ensures bytes { self.new ≡ self.old ++ bytes.now }
        ensures len { length self.new ≡ length self.old + length bytes.now }
    {
        match self.bytes.try_extend_from_slice(bytes) {
            Ok(()) => {}
            Err(_) => unreachable!(),
        }
    }

    /// Adds the decimal digits of a number, at most 20.
    pub fn push_number(&mut self, number: u64)
        requires { length self.old + 20 ≤ 4096 }
        ensures bytes { self.new ≡ self.old ++ decimal number }
        ensures len { length self.new ≤ length self.old + 20 }
    {
        let mut buffer = Buffer::new();
        self.push(buffer.format(number).as_bytes());
    }

    /// Adds a space and a number.
    pub fn then_number(&mut self, number: u64)
        requires { length self.old + 21 ≤ 4096 }
        ensures bytes { self.new ≡ self.old ++ then_number number }
        ensures len { length self.new ≤ length self.old + 21 }
    {
        self.push(b" ");
        self.push_number(number);
    }

    /// Adds a word, a space and a number.
    pub fn push_field(&mut self, word: &[u8], number: u64)
        requires { length self.old + length word.now + 21 ≤ 4096 }
        ensures bytes { self.new ≡ self.old ++ field word.now number }
        ensures len { length self.new ≤ length self.old + length word.now + 21 }
    {
        self.push(word);
        self.then_number(number);
    }

    /// Adds a field, and the most that it may be.
    pub fn push_share(&mut self, word: &[u8], number: u64, most: u64)
        requires { length self.old + length word.now + 45 ≤ 4096 }
        ensures bytes { self.new ≡ self.old ++ share word.now number most }
        ensures len { length self.new ≤ length self.old + length word.now + 45 }
    {
        self.push_field(word, number);
        self.push_field(b" of", most);
    }

    /// How many bytes there are.
    pub fn len(&self) -> usize
        ensures { result ≡ length self.now }
    {
        self.bytes.len()
    }

    /// All its bytes, in order.
    pub fn bytes(&self) -> &[u8]
        ensures { result.now ≡ self.now }
    {
        self.bytes.as_slice()
    }
}
