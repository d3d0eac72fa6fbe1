// One reader over the token list: the list and a place in it. The parser looks into the list through it alone.
ghost use Rattle.std.specs.Prelude.{◌≡◌};
ghost use Rattle.cursor.specs.Sheet.{kind_at, range_at};
ghost use Rattle.cursor.specs.Tokens.{past_trivia};

use crate::{Span, TOKEN_WORDS};

#[derive(Clone, Copy)]
pub struct Reader<'a> {
    pub tokens: &'a [u32],
    pub at: usize,
}

impl<'a> Reader<'a> {
    // A reader at a place.
    pub fn over(tokens: &'a [u32], at: usize) -> Reader<'a>
        ensures { result ≡ record { tokens = tokens.entry; at = at } }
    {
        Reader { tokens, at }
    }

    // The kind of the token here; Eof at the end.
    pub fn kind(self) -> u32
        ensures { result ≡ kind_at self.entry.tokens.now self.entry.at }
    {
        if self.at < self.tokens.len() / TOKEN_WORDS {
            self.tokens[self.at * TOKEN_WORDS]
        } else {
            kinds::EOF as u32
        }
    }

    // The range of the token here, if there is one.
    pub fn range(self) -> Option<Span>
        ensures { result ≡ range_at self.entry.tokens.now self.entry.at }
    {
        if self.at < self.tokens.len() / TOKEN_WORDS {
            let here = self.at * TOKEN_WORDS;
            let start = self.tokens[here + 1];
            let end = self.tokens[here + 2];
            Some(Span { start, end })
        } else {
            None
        }
    }

    // The reader on at the first token from here that is no trivia.
    pub fn past(self) -> Reader<'a>
        ensures { result ≡ record { tokens = self.entry.tokens; at = past_trivia self.entry.tokens.now self.entry.at } }
    {
        // By the place, which is the answer, and of which the rule `past_trivia` speaks.
        let mut at = self.at;
        while (Reader { at, ..self }).kind() < kinds::IDENT as u32 {
            at += 1;
        }
        Reader { at, ..self }
    }
}
