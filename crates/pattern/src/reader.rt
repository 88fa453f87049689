// The reader that holds the lent bytes and its place. Its functions are thin: each takes it apart
// and hands slice and number on.
ghost use Rattle.std.specs.Prelude.{◌≡◌, drop};
ghost use Rattle.tokens.specs.Token.{lexeme_of};
ghost use Rattle.tokens.specs.Answer.{lexeme};
ghost use Rattle.pattern.specs.Read.{limited_read, options_of, answer_of, answered};

use crate::{Reading, read_at};
use refusals::Fault;
use tokens::{Lexeme, Options, token_at};

// The bytes of a pattern, and a place in them. A place past the end reads as the end.
#[derive(Clone, Copy)]
pub struct Reader<'a> {
    pub bytes: &'a [u8],
    pub at: usize,
}

impl<'a> Reader<'a> {
    // A reader at the first byte.
    pub fn new(bytes: &'a [u8]) -> Reader<'a>
        ensures { (result.bytes ≡ bytes.entry) × (result.at ≡ 0) }
    {
        Reader { bytes, at: 0 }
    }

    // The token at its place, where the options are these.
    pub fn peek(self, options: Options) -> Lexeme
        ensures { lexeme result ≡ lexeme_of options (drop self.entry.at self.entry.bytes.now) }
    {
        token_at(self.bytes, self.at, options)
    }

    // Reads what stands from its place on as a pattern.
    pub fn read(self, flags: u32) -> Result<Reading, Fault>
        ensures { answered result ≡ answer_of (limited_read (drop self.entry.at self.entry.bytes.now) (options_of flags)) }
    {
        read_at(self.bytes, self.at, flags)
    }
}
