// Whoever answers lines.
ghost use Rattle.std.specs.Prelude.{◌≡◌, ℕ, Bool, List, take, string_bytes, OnOk};
ghost use Rattle.lines.specs.Dialogues.{Added};

use std::alloc::AllocError;

// A responder takes one line after another, and adds the answer to a text.
pub trait Responder {
    // To this line it goes from one state to another, and says these bytes.
    ghost answers: { Self → List ℕ → Self → List ℕ → Type 0 };

    // It looks at no line any more.
    ghost ended: { Self → Bool };

    // The first 65 bytes of a line decide.
    ghost short: { (s t : Self) (line said : List ℕ) → answers s (take 65 line) t said → answers s line t said };

    // Has it ended?
    fn has_ended(&self) -> bool
        ensures { result ≡ ended self.now };

    // Answers one line.
    fn respond(&mut self, line: &[u8], out: &mut String) -> Result<(), AllocError>
        ensures { OnOk result (Added (string_bytes out.old) (string_bytes out.new) (answers self.old line.now self.new)) };
}
