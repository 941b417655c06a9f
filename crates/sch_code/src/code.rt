//! A buffer for the bytes of one instruction.

ghost use Rattle.std.specs.Prelude.{◌≡◌, ℕ, ◌+◌, ◌<◌, ◌≤◌, List, [], ◌∷◌, ◌++◌, length, take};
ghost use Rattle.sch_insn.specs.Spelling.{one_byte, four_bytes, eight_bytes};

use std::marker::Model;

/// A buffer of 16 bytes, more than any spelling has. Contracts see the bytes that were put into it.
#[derive(Drop)]
pub struct Code {
    bytes: [u8; 16],
    len: usize,
}

impl Model for Code {
    ghost Value = { List ℕ };

    ghost view = { λ c. take c.len c.bytes };

    ghost invariant = { λ c. c.len ≤ 16 };
}

impl Code {
    /// An empty buffer.
    pub fn new() -> Code
        ensures empty { result ≡ [] }
    {
        Code {
            bytes: [0; 16],
            len: 0,
        }
    }

    /// The bytes that were put into the buffer.
    pub fn bytes(&self) -> &[u8]
        ensures all { result.now ≡ self.now }
    {
        &self.bytes[..self.len]
    }

    /// The whole buffer, at whose front the bytes are that were put into it.
    pub(crate) fn whole(&self) -> &[u8; 16]
        ensures { take (length self.now) result.now ≡ self.now }
    {
        &self.bytes
    }

    /// Forgets what the buffer has.
    pub(crate) fn clear(&mut self)
        ensures { self.new ≡ [] }
    {
        self.len = 0;
    }

    /// One more byte.
    pub(crate) fn put(&mut self, byte: u8)
        requires { length self.old < 16 }
        ensures { self.new ≡ self.old ++ byte ∷ [] }
    {
        let at = self.len;
        self.bytes[at] = byte;
        self.len = at + 1;
    }

    /// One byte.
    pub(crate) fn put_i8(&mut self, number: i8)
        requires { length self.old < 16 }
        ensures { self.new ≡ self.old ++ one_byte number }
    {
        self.put(number.cast_unsigned());
    }

    fn put_all(&mut self, bytes: &[u8])
        requires { length self.old + length bytes.now ≤ 16 }
        ensures { self.new ≡ self.old ++ bytes.now }
    {
        let end = self.len + bytes.len();
        self.bytes[self.len..end].copy_from_slice(bytes);
        self.len = end;
    }

    /// Four bytes, the lowest first.
    pub(crate) fn put_i32(&mut self, number: i32)
        requires { length self.old ≤ 12 }
        ensures { self.new ≡ self.old ++ four_bytes number }
    {
        self.put_all(&number.to_le_bytes());
    }

    /// Eight bytes, the lowest first.
    pub(crate) fn put_i64(&mut self, number: i64)
        requires { length self.old ≤ 8 }
        ensures { self.new ≡ self.old ++ eight_bytes number }
    {
        self.put_all(&number.to_le_bytes());
    }
}
