// Tests of what stands here, and the live list of the kinds that were expected.
ghost use Rattle.std.specs.Prelude.{◌≡◌};
ghost use Rattle.cursor.specs.Checks.{check, eat, expect, eat_range, pick, unexpected_at, is_in, room_for, full_at, misses};
ghost use Rattle.cursor.specs.Answers.{sheet_of, run, ended, SameRecords};

use crate::{Fault, LIVE_ROOM, Parser, Refusal, Sheet, Span, Stop};

// Whether the live list has room for so many kinds more.
fn has_room(told: usize, more: usize) -> bool
    ensures { result ≡ room_for told more }
{
    more <= LIVE_ROOM && told <= LIVE_ROOM - more
}

// Whether it is full, where it is not known to be roomy.
fn is_full(roomy: bool, told: usize) -> bool
    ensures { result ≡ full_at roomy told }
{
    !roomy && LIVE_ROOM <= told
}

// Whether a kind is one of a chain's. Nothing else is in the loop, so that of a longer chain the compiler makes a test of bits.
pub fn is_in(kind: u32, chain: &[u8]) -> bool
    ensures { result ≡ is_in kind chain.now }
{
    for &one in chain {
        if kind == one as u32 {
            return true;
        }
    }
    false
}

// Whether none of a chain's kinds was found, and the live list has room for all of them.
fn misses(found: u32, told: usize, chain: &[u8]) -> bool
    ensures { result ≡ misses found told chain.now }
{
    !is_in(found, chain) && has_room(told, chain.len())
}

impl Parser<'_> {
    // Is the current token of this kind? Where not, the kind joins the live list, repeats kept.
    pub fn check(&mut self, sheet: &Sheet<'_>, kind: u8) -> Result<bool, Stop>
        ensures ended { ended self.new result ≡ run (check (sheet_of sheet.now) kind) self.old }
        ensures lent { SameRecords self.old self.new }
    {
        if self.current_kind(sheet) == kind as u32 {
            return Ok(true);
        }
        let told = self.state.live as usize;
        if LIVE_ROOM <= told {
            return Err(Stop::Refused(Refusal::ListFull));
        }
        self.live[told] = kind;
        self.state.live += 1;
        Ok(false)
    }

    // Takes a token of this kind if it stands here.
    pub fn eat(&mut self, sheet: &Sheet<'_>, kind: u8) -> Result<bool, Stop>
        ensures ended { ended self.new result ≡ run (eat (sheet_of sheet.now) kind) self.old }
        ensures lent { SameRecords self.old self.new }
    {
        if !self.check(sheet, kind)? {
            return Ok(false);
        }
        self.bump(sheet)?;
        Ok(true)
    }

    // The error of an unexpected token; at the end of input, Eof with an empty range at the end of the last token read.
    pub fn unexpected_at(&self, sheet: &Sheet<'_>) -> Fault
        ensures { result ≡ unexpected_at (sheet_of sheet.now) self.now.state }
    {
        let prev = self.state.prev;
        let span = self.current_range(sheet).unwrap_or(Span {
            start: prev,
            end: prev,
        });
        Fault {
            class: 0,
            found: self.current_kind(sheet),
            span,
            listed: true,
        }
    }

    // A rule ends here since the token is unexpected.
    pub fn unexpected(&self, sheet: &Sheet<'_>) -> Stop
        ensures { result ≡ Stop.Fault (unexpected_at (sheet_of sheet.now) self.now.state) }
    {
        Stop::Fault(self.unexpected_at(sheet))
    }

    // A token of this kind has to stand here, and is taken.
    pub fn expect(&mut self, sheet: &Sheet<'_>, kind: u8) -> Result<(), Stop>
        ensures ended { ended self.new result ≡ run (expect (sheet_of sheet.now) kind) self.old }
        ensures lent { SameRecords self.old self.new }
    {
        if !self.eat(sheet, kind)? {
            return Err(self.unexpected(sheet));
        }
        Ok(())
    }

    // Takes a token of this kind if it stands here, and answers its range.
    pub fn eat_range(&mut self, sheet: &Sheet<'_>, kind: u8) -> Result<Option<Span>, Stop>
        ensures ended { ended self.new result ≡ run (eat_range (sheet_of sheet.now) kind) self.old }
        ensures lent { SameRecords self.old self.new }
    {
        let range = self.current_range(sheet);
        if !self.check(sheet, kind)? {
            return Ok(None);
        }
        self.bump(sheet)?;
        Ok(range)
    }

    // A chain of checks: the place of the first kind that stands here; where none does, the chain's length. Mostly none does: then all of them are
    // written one behind the other, with no test between them.
    pub fn pick(&mut self, sheet: &Sheet<'_>, chain: &[u8]) -> Result<usize, Stop>
        ensures ended { ended self.new result ≡ run (pick (sheet_of sheet.now) chain.now) self.old }
        ensures lent { SameRecords self.old self.new }
    {
        let found = self.current_kind(sheet);
        if !misses(found, self.state.live as usize, chain) {
            return self.seek(sheet, chain);
        }
        for &kind in chain {
            self.live[self.state.live as usize] = kind;
            self.state.live += 1;
        }
        Ok(chain.len())
    }

    // The same, kind by kind.
    fn seek(&mut self, sheet: &Sheet<'_>, chain: &[u8]) -> Result<usize, Stop>
        ensures ended { ended self.new result ≡ run (pick (sheet_of sheet.now) chain.now) self.old }
        ensures lent { SameRecords self.old self.new }
    {
        let found = self.current_kind(sheet);
        // Told once for the whole chain, so that its kinds need no test each: the list is never full in a sheet.
        let roomy = has_room(self.state.live as usize, chain.len());
        // By the place, which is the answer.
        for place in 0..chain.len() {
            let kind = chain[place];
            if found == kind as u32 {
                return Ok(place);
            }
            let told = self.state.live as usize;
            if is_full(roomy, told) {
                return Err(Stop::Refused(Refusal::ListFull));
            }
            self.live[told] = kind;
            self.state.live += 1;
        }
        Ok(chain.len())
    }
}
