// One word of a line.
ghost use Rattle.std.specs.Prelude.{◌≡◌};
ghost use Rattle.console.specs.Words.{IsKind, text, start_of, is_digits};

// A word, as a part of the line, with the byte where it starts.
#[derive(Clone, Copy)]
pub enum Token<'a> {
    // One letter.
    Letter(&'a u8, usize),
    // Digits, one or more.
    Number(&'a [u8], usize),
    // Anything else, an empty word too.
    Other(&'a [u8], usize),
}

// One digit or more, and nothing else.
fn is_number(word: &[u8]) -> bool
    ensures { result ≡ is_digits word.now }
{
    !word.is_empty() && word.iter().all(u8::is_ascii_digit)
}

impl<'a> Token<'a> {
    // The word with these bytes.
    pub fn new(word: &'a [u8], start: usize) -> Token<'a>
        ensures kind { IsKind result start }
        ensures text { text result ≡ word.now }
    {
        match word {
            [b] if b.is_ascii_alphabetic() => Token::Letter(b, start),
            _ if is_number(word) => Token::Number(word, start),
            _ => Token::Other(word, start),
        }
    }

    // The byte where the word starts.
    pub(crate) fn start(&self) -> usize
        ensures { result ≡ start_of self.now }
    {
        match self {
            Token::Letter(_, start) | Token::Number(_, start) | Token::Other(_, start) => *start,
        }
    }
}
