ghost use Rattle.std.specs.Prelude.{◌≡◌, ◌≤◌, ◌+◌, ◌++◌, [], List, ℕ, length, decimal};

use arrayvec::ArrayVec;
use itoa::Buffer;
use std::marker::Model;

/// A line under construction, of at most 512 bytes. Contracts see it as its bytes. It takes no memory.
#[derive(Drop)]
pub struct LineText {
    bytes: ArrayVec<u8, 512>,
}

impl Model for LineText {
    ghost use Rattle.std.specs.Prelude.{List, ℕ};

    ghost Value = { List ℕ };

    ghost view = { λ l. l.bytes.items };
}

impl LineText {
    /// An empty line.
    pub fn new() -> LineText
        ensures { result ≡ [] }
    {
        LineText {
            bytes: ArrayVec::new(),
        }
    }

    /// Puts bytes at its end.
    pub fn put(&mut self, bytes: &[u8])
        requires { length self.old + length bytes.now ≤ 512 }
        ensures { self.new ≡ self.old ++ bytes.now }
    {
        let Ok(()) = self.bytes.try_extend_from_slice(bytes) else {
            unreachable!()
        };
    }

    /// Puts a number at its end, in decimal: at most 10 digits.
    pub fn put_number(&mut self, n: u32)
        requires { length self.old + 10 ≤ 512 }
        ensures text { self.new ≡ self.old ++ decimal n }
        ensures short { length self.new ≤ length self.old + 10 }
    {
        let mut buffer = Buffer::new();
        self.put(buffer.format(n).as_bytes());
    }

    /// Its bytes.
    pub fn bytes(&self) -> &[u8]
        ensures { result.now ≡ self.now }
    {
        self.bytes.as_slice()
    }
}
