// The line that is being read, as far as it matters.
ghost use Rattle.std.specs.Prelude.{◌≡◌, ◌≤◌, [], ◌∷◌, ◌++◌, length, take};

use arrayvec::ArrayVec;
use std::marker::Model;

// How many bytes of a line are kept. Lines of more than 64 bytes are all refused alike, so one byte more than that is enough.
pub const KEPT: usize = 65;

// The first bytes of a line; a line may have any length, and takes no more memory than this.
#[derive(Drop)]
pub struct LineBuffer {
    bytes: ArrayVec<u8, KEPT>,
}

// A buffer is the bytes that it keeps.
impl Model for LineBuffer {
    ghost use Rattle.std.specs.Prelude.{ℕ, List};

    ghost Value = { List ℕ };

    ghost view = { λ b. b.bytes.items };
}

impl LineBuffer {
    // No byte yet.
    pub fn new() -> LineBuffer
        ensures { result ≡ [] }
    {
        LineBuffer {
            bytes: ArrayVec::new(),
        }
    }

    // One byte of the line more.
    pub fn push(&mut self, byte: u8)
        ensures { self.new ≡ take 65 (self.old ++ (byte ∷ [])) }
    {
        if !self.bytes.is_full() {
            self.bytes.push(byte);
        }
    }

    // More bytes of the line, of which those are copied that still fit.
    pub fn extend_from_slice(&mut self, bytes: &[u8])
        ensures { self.new ≡ take 65 (self.old ++ bytes.now) }
    {
        let fitting = self.bytes.remaining_capacity().min(bytes.len());
        self.bytes.try_extend_from_slice(&bytes[..fitting]).unwrap();
    }

    // The bytes that were kept.
    pub fn line(&self) -> &[u8]
        ensures fits { length result.now ≤ 65 }
        ensures value { result.now ≡ self.now }
    {
        self.bytes.as_slice()
    }

    // Begins a new line.
    pub fn clear(&mut self)
        ensures { self.new ≡ [] }
    {
        self.bytes = ArrayVec::new();
    }
}
