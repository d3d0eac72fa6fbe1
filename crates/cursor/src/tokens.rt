// Where the reading stands in the token list. What stands there is asked of a reader at that place.
ghost use Rattle.std.specs.Prelude.{◌≡◌, Ok, OnErr};
ghost use Rattle.cursor.specs.Sheet.{kind_at, range_at};
ghost use Rattle.cursor.specs.Rule.{done};
ghost use Rattle.cursor.specs.Tokens.{eat_trivia, bump, eat_eol, start_of, end_range, rewind};
ghost use Rattle.cursor.specs.Answers.{sheet_of, world_of, run, ended, SameBuffers};

use crate::reader::Reader;
use crate::{Parser, Refusal, Sheet, Span, State, Stop};

impl Parser<'_> {
    // The kind of the current token; Eof at the end.
    pub fn current_kind(&self, sheet: &Sheet<'_>) -> u32
        ensures { result ≡ kind_at sheet.now.tokens.now self.now.state.at }
    {
        Reader::over(sheet.tokens, self.state.at).kind()
    }

    // The range of the current token, if there is one.
    pub fn current_range(&self, sheet: &Sheet<'_>) -> Option<Span>
        ensures { result ≡ range_at sheet.now.tokens.now self.now.state.at }
    {
        Reader::over(sheet.tokens, self.state.at).range()
    }

    // Moves over the current token and the trivia behind it.
    pub fn bump(&mut self, sheet: &Sheet<'_>) -> Result<(), Stop>
        ensures ended { ended self.new result ≡ run (bump (sheet_of sheet.now)) self.old }
        ensures lent { SameBuffers self.old self.new }
        ensures stays { OnErr result (self.new.state ≡ self.old.state) }
    {
        let Some(span) = self.current_range(sheet) else {
            self.state.live = 0;
            return Ok(());
        };
        if sheet.limits.allowance <= self.state.reads {
            return Err(Stop::Refused(Refusal::AllSpent));
        }
        self.state.at = Reader::over(sheet.tokens, self.state.at + 1).past().at;
        self.state.prev = span.end;
        self.state.reads += 1;
        self.state.live = 0;
        Ok(())
    }

    // Skips all trivia tokens.
    pub fn eat_trivia(&mut self, sheet: &Sheet<'_>)
        ensures ended { ended self.new (Ok (tt {0})) ≡ run (eat_trivia (sheet_of sheet.now)) self.old }
        ensures lent { SameBuffers self.old self.new }
    {
        self.state.at = Reader::over(sheet.tokens, self.state.at).past().at;
    }

    // Takes all Eol tokens, and the trivia before and between them.
    pub fn eat_eol(&mut self, sheet: &Sheet<'_>) -> Result<(), Stop>
        ensures ended { ended self.new result ≡ run (eat_eol (sheet_of sheet.now)) self.old }
        ensures lent { SameBuffers self.old self.new }
        ensures stays { OnErr result (self.new.state ≡ self.old.state) }
    {
        let mark = self.state;
        self.eat_trivia(sheet);
        while self.current_kind(sheet) == kinds::EOL as u32 {
            if let Err(stop) = self.bump(sheet) {
                self.state = mark;
                return Err(stop);
            }
        }
        Ok(())
    }

    // Where a range starts that begins here; 0 at the end of input.
    pub fn start_range(&self, sheet: &Sheet<'_>) -> u32
        ensures { result ≡ start_of (range_at sheet.now.tokens.now self.now.state.at) }
    {
        match self.current_range(sheet) {
            Some(span) => span.start,
            None => 0,
        }
    }

    // A range from a start to the end of the last token read.
    pub fn end_range(&self, start: u32) -> Span
        ensures { result ≡ end_range self.now.state start }
    {
        Span {
            start,
            end: self.state.prev,
        }
    }

    // Back to a mark, with the readings kept.
    pub fn rewind(&mut self, mark: State)
        ensures ended { ended self.new (Ok (tt {0})) ≡ done (rewind mark self.old.state) (world_of self.old) (tt {0}) }
        ensures lent { SameBuffers self.old self.new }
    {
        let reads = self.state.reads;
        let live = mark.live.min(self.state.live);
        self.state = State {
            reads,
            live,
            ..mark
        };
    }
}
