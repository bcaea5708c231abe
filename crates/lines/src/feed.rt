// Input in pieces of any size.
ghost use Rattle.std.specs.Prelude.{◌≡◌, ◌<◌, ℕ, List, [], ◌++◌, length, take, Some, None, string_bytes, OnOk};
ghost use Rattle.std.specs.Option.{unwrap_or};
ghost use Rattle.lines.specs.Dialogues.{Added, Turn, Dialogue, Leads, Completes};
ghost use Rattle.lines.specs.Lines.{Unbroken, broken_off, TheLines};

use crate::line_buffer::LineBuffer;
use crate::responder::Responder;
use std::alloc::AllocError;
use std::marker::Model;

// What is known of the input between two pieces: the line that has not ended, or nothing where no byte has come.
#[derive(Drop)]
pub struct Feed {
    line: Option<LineBuffer>,
}

// Has a line answered, unless the responder has ended.
fn answer<R: Responder>(line: &[u8], out: &mut String, responder: &mut R) -> Result<(), AllocError>
    ensures { OnOk result (Added (string_bytes out.old) (string_bytes out.new) (Turn R.Responder.answers R.Responder.ended responder.old line.now responder.new)) }
{
    if responder.has_ended() {
        return Ok(());
    }
    responder.respond(line, out)
}

// A feed is the bytes that it keeps.
impl Model for Feed {
    ghost use Rattle.std.specs.Prelude.{ℕ, List, Option};

    ghost Value = { Option (List ℕ) };

    ghost view = { λ f. f.line };
}

impl Feed {
    // No byte has come.
    pub fn new() -> Feed
        ensures { result ≡ None }
    {
        Feed { line: None }
    }

    // Keeps bytes of a line that has not ended, as far as they matter.
    fn keep(&mut self, bytes: &[u8])
        ensures none { bytes.now ≡ [] → self.new ≡ self.old }
        ensures some { 0 < length bytes.now → self.new ≡ Some (take 65 (unwrap_or self.old [] ++ bytes.now)) }
    {
        if !bytes.is_empty() {
            let line = self.line.get_or_insert_with(LineBuffer::new);
            line.extend_from_slice(bytes);
        }
    }

    // Takes the last bytes of a line that has now ended, and has it answered.
    fn end_line<R: Responder>(
        &mut self,
        bytes: &[u8],
        out: &mut String,
        responder: &mut R,
    ) -> Result<(), AllocError>
        requires { Unbroken bytes.now }
        ensures { OnOk result (Added (string_bytes out.old) (string_bytes out.new) (Leads R.Responder.answers R.Responder.ended self.old responder.old (broken_off bytes.now) self.new responder.new)) }
    {
        let line = self.line.get_or_insert_with(LineBuffer::new);
        line.extend_from_slice(bytes);
        answer(line.line(), out, responder)?;
        line.clear();
        Ok(())
    }

    // Takes a piece of the input, and has the lines answered that end in it.
    // The text and the responder stay two parameters: the program prints and empties the text between pieces.
    pub fn feed<R: Responder>(
        &mut self,
        piece: &[u8],
        out: &mut String,
        responder: &mut R,
    ) -> Result<(), AllocError>
        ensures { OnOk result (Added (string_bytes out.old) (string_bytes out.new) (Leads R.Responder.answers R.Responder.ended self.old responder.old piece.now self.new responder.new)) }
    {
        // Each byte is looked at once: up to the end of a line it is copied, as far as it fits.
        let mut rest = piece;
        while let Some(end) = rest.iter().position(|byte| *byte == b'\n') {
            self.end_line(&rest[..end], out, responder)?;
            rest = &rest[end + 1..];
        }
        self.keep(rest);
        Ok(())
    }

    // Ends the input: a last line may lack its byte 10, and an input with no line has a first line that is missing.
    pub fn finish<R: Responder>(
        &self,
        out: &mut String,
        responder: &mut R,
    ) -> Result<(), AllocError>
        ensures { OnOk result (Added (string_bytes out.old) (string_bytes out.new) (Completes R.Responder.answers R.Responder.ended self.now responder.old responder.new)) }
    {
        match &self.line {
            None => answer(&[], out, responder),
            Some(line) if line.line().is_empty() => Ok(()),
            Some(line) => answer(line.line(), out, responder),
        }
    }
}

// Has all lines of an input answered.
pub fn respond_all<R: Responder>(
    input: &[u8],
    out: &mut String,
    responder: &mut R,
) -> Result<(), AllocError>
    ensures { OnOk result (Added (string_bytes out.old) (string_bytes out.new) (λ said. (lines : List (List ℕ)) × TheLines input.now lines × Dialogue R.Responder.answers R.Responder.ended lines responder.old responder.new said)) }
{
    let mut feed = Feed::new();
    feed.feed(input, out, responder)?;
    feed.finish(out, responder)
}
