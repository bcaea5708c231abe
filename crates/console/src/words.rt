// The words of a line, one after another. What each reading call passes stays a clause of it, which ties what was left before
// to what is left after.
ghost use Rattle.std.specs.Prelude.{◌+◌, ◌≤◌};
ghost use Rattle.console.specs.Rest.{room};

// What is left of a line of at most 64 bytes: the bytes after the last space that was passed, if
// the line goes on, and the byte where the next word starts or should start.
#[derive(Clone, Copy)]
pub struct Words<'a> {
    pub(crate) rest: Option<&'a [u8]>,
    pub(crate) start: usize,
    ghost short: { start + room rest ≤ 65 },
}
