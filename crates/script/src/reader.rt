// A place in a text.
ghost use Rattle.std.specs.Prelude.{◌+◌, ◌^◌, ◌<◌, length};

// What is left of a text, and the number of its first line.
#[derive(Clone, Copy, PartialEq, Eq, Debug)]
pub struct Reader<'a> {
    pub rest: &'a [u8],
    pub number: usize,
    ghost counted: { number + length rest.now < 2 ^ 64 },
}

// A line: its number, and what it says without its comment.
#[derive(Clone, Copy, PartialEq, Eq, Debug)]
pub struct Line<'a> {
    pub number: usize,
    pub code: &'a [u8],
}
