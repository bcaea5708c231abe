// A line as a command.
ghost use Rattle.std.specs.Prelude.{◌≡◌, ◌+◌, ◌≤◌, true, [], ◌∷◌, length, take, Some, Ok, MatchResult};
ghost use Rattle.console.specs.declared.command.Command.{Command};
ghost use Rattle.console.specs.declared.command.LineFault.TheVariants.{BadWord};
ghost use Rattle.console.specs.Grammar.{letter_at, number_at, last_number, reading};
ghost use Rattle.console.specs.Left.{words_in, left, First, Passed};
ghost use Rattle.console.specs.Words.{words, is_digits, number_of, below};
ghost use Rattle.console.specs.Rest.{room};
ghost use Rattle.console.specs.Commands.{printed, SixteenBits, Spells};

use crate::command::{Command, LineFault};
use crate::token::Token;
use crate::words::Words;

// The first word, and what follows its space.
fn split_word(rest: &[u8]) -> (&[u8], Option<&[u8]>)
    ensures words { words rest.now ≡ result.0.now ∷ words_in result.1 }
    ensures room { length result.0.now + room result.1 ≤ length rest.now }
{
    let end = rest.iter().position(|b| *b == b' ').unwrap_or(rest.len());
    (&rest[..end], rest.get(end + 1..))
}

impl<'a> Words<'a> {
    // The words of a line of at most 64 bytes.
    fn new(line: &'a [u8]) -> Words<'a>
        requires { length line.now ≤ 64 }
        ensures words { left result ≡ words line.now }
        ensures start { result.start ≡ 0 }
    {
        Words {
            rest: Some(line),
            start: 0,
        }
    }

    // Passes the next word, if there is one.
    fn take(&mut self) -> Option<Token<'a>>
        ensures first { First self.old result }
        ensures passed { Passed self.old self.new }
    {
        let start = self.start;
        let (word, rest) = split_word(self.rest?);
        *self = Words {
            rest,
            start: start + word.len() + 1,
        };
        Some(Token::new(word, start))
    }

    // Passes the next word, which is not to be missing.
    fn word(&mut self) -> Result<Token<'a>, LineFault>
        ensures first { MatchResult result (λ word. First self.old (Some word)) (λ fault. (left self.old ≡ []) × (fault ≡ BadWord self.old.start)) }
        ensures passed { Passed self.old self.new }
    {
        self.take().ok_or(LineFault::BadWord(self.start))
    }

    // Passes the next word, which is to be a letter.
    fn letter(&mut self) -> Result<char, LineFault>
        ensures value { result ≡ letter_at self.old.start (left self.old) }
        ensures passed { Passed self.old self.new }
    {
        match self.word()? {
            Token::Letter(b, _) => Ok(char::from(*b)),
            other => Err(LineFault::BadWord(other.start())),
        }
    }

    // Passes the next word, which is to be a number of at most 65,535.
    fn number(&mut self) -> Result<u16, LineFault>
        ensures value { result ≡ number_at self.old.start (left self.old) }
        ensures passed { Passed self.old self.new }
    {
        match self.word()? {
            Token::Number(digits, start) => {
                small_number(digits).ok_or(LineFault::TooLarge(start))
            }
            other => Err(LineFault::BadWord(other.start())),
        }
    }

    // Passes a number, after which no word is to follow.
    fn last_number(&mut self) -> Result<u16, LineFault>
        ensures { result ≡ last_number self.old.start (left self.old) }
    {
        let n = self.number()?;
        match self.take() {
            Some(surplus) => Err(LineFault::BadWord(surplus.start())),
            None => Ok(n),
        }
    }
}

// The number that the digits write, if it is at most 65,535.
// Stays a loop: with std's parser a short line takes twice the time.
fn small_number(digits: &[u8]) -> Option<u16>
    requires { is_digits digits.now ≡ true }
    ensures { result ≡ below 65536 (number_of 0 digits.now) }
{
    let mut n: u16 = 0;
    for d in digits {
        n = u16::try_from(u32::from(n) * 10 + u32::from(*d - b'0')).ok()?;
    }
    Some(n)
}

// The letter decides how many numbers follow.
fn read_command(line: &[u8]) -> Result<Command, LineFault>
    ensures { result ≡ reading line.now }
{
    if line.len() > 64 {
        return Err(LineFault::BadWord(64));
    }
    let mut words = Words::new(line);
    match words.letter()? {
        'P' => Ok(Command::Plan(words.last_number()?)),
        'G' => Ok(Command::Guarantee(words.last_number()?)),
        'R' => Ok(Command::Route(words.last_number()?)),
        'B' => Ok(Command::Backup(words.last_number()?)),
        'W' => Ok(Command::Withdraw(words.last_number()?)),
        'M' => Ok(Command::Restore(words.last_number()?)),
        'L' => Ok(Command::TraceLink(words.number()?, words.last_number()?)),
        'S' => Ok(Command::TraceGroup(words.number()?, words.last_number()?)),
        _ => Err(LineFault::BadWord(0)),
    }
}

// The command that a line gives. A line that is accepted spells its command, a command as it is printed reads as itself,
// and the first 65 bytes of a line decide.
pub fn parse(line: &[u8]) -> Result<Command, LineFault>
    ensures value { result ≡ reading line.now }
    ensures accepted { (c : Command) → result ≡ Ok c → Spells line.now c }
    ensures printed { (c : Command) → SixteenBits c → line.now ≡ printed c → result ≡ Ok c }
    ensures kept { reading (take 65 line.now) ≡ result }
{
    read_command(line)
}
