// The entry check: whether a text and its tokens are fit to read, or which of the refusals 1 to 6 is given.
// Tokens are 32-bit words, three to a token: kind, start, end. Nothing is written.
#![tactic(auto)]

ghost use Rattle.std.specs.Prelude.{◌≡◌, cond, true, not, ◌||◌, [], ◌∷◌, ◌+◌, ◌≤◌, length, take, drop, replicate, ltb};
ghost use Rattle.entry.specs.Utf8.{ascii, tail, between, fits, char_length, ascii_run, is_utf8, no_tail};
ghost use Rattle.entry.specs.Little.{little};
ghost use Rattle.entry.specs.Check.{refusal_number, bad_kind, bad_range, is_quote, quoted, marked, bad_quotes, token_fault, tokens_fault, entry_of};

// The refusals, each with the number that the document gives it.
#[derive(Clone, Copy, Debug, PartialEq, Eq)]
pub enum Refusal {
    TextTooLong = 1,
    TooManyTokens = 2,
    NotUtf8 = 3,
    BadKind = 4,
    BadRange = 5,
    BadQuotes = 6,
}

// The limits.
pub const MAX_TEXT: usize = 65535;

pub const MAX_TOKENS: usize = 4096;

pub const LAST_KIND: u32 = 78;

// The highest bit of each of eight bytes, which no character of one byte has.
const HIGH_BITS: u64 = 0x8080_8080_8080_8080;

// The kinds that the check names, as wide as a token's words.
const EOF: u32 = kinds::EOF as u32;

const STR: u32 = kinds::STR as u32;

const RAW_STR: u32 = kinds::RAW_STR as u32;

const BYTE_STR: u32 = kinds::BYTE_STR as u32;

// A function of this name, since the rules and the crates above go by it.
pub fn refusal_number(r: Refusal) -> u8
    ensures { result ≡ refusal_number r }
{
    r as u8
}

// Whether a byte from `low` to `high` stands at `at`.
fn byte_in(text: &[u8], at: usize, low: u8, high: u8) -> bool
    ensures { result ≡ fits (between low high ∷ []) (drop at text.now) }
{
    match text.get(at) {
        Some(&b) => low <= b && b <= high,
        None => false,
    }
}

// Whether `count` tails stand from `at` on.
fn tails(text: &[u8], at: usize, count: u8) -> bool
    ensures { result ≡ fits (replicate count tail) (drop at text.now) }
{
    for i in 0..usize::from(count) {
        if !byte_in(text, at + i, 0x80, 0xBF) {
            return false;
        }
    }
    true
}

// Whether a byte from `low` to `high` stands at `at`, and `more` tails after it.
fn follow(text: &[u8], at: usize, low: u8, high: u8, more: u8) -> bool
    ensures { result ≡ fits (between low high ∷ replicate more tail) (drop at text.now) }
{
    if !byte_in(text, at, low, high) {
        return false;
    }
    tails(text, at + 1, more)
}

// The length of a character whose first byte was seen, or 0 where the rest of it is not as it should be. A 0 and no Option, here and below: it is the
// answer of the definition `char_length`, on which the theorem `utf8-decides` rests.
fn whole(length: usize, complete: bool) -> usize
    ensures { result ≡ cond complete length 0 }
{
    if complete { length } else { 0 }
}

// The length of the character that starts with `b` and goes on at `next`, by the rows of RFC 3629, section 4; 0 where there is none.
fn row_length(text: &[u8], next: usize, b: u8) -> usize
    ensures { result ≡ char_length (b ∷ drop next text.now) }
{
    match b {
        0x00..=0x7F => 1,
        0xC2..=0xDF => whole(2, follow(text, next, 0x80, 0xBF, 0)),
        0xE0..=0xE0 => whole(3, follow(text, next, 0xA0, 0xBF, 1)),
        0xE1..=0xEC => whole(3, follow(text, next, 0x80, 0xBF, 1)),
        0xED..=0xED => whole(3, follow(text, next, 0x80, 0x9F, 1)),
        0xEE..=0xEF => whole(3, follow(text, next, 0x80, 0xBF, 1)),
        0xF0..=0xF0 => whole(4, follow(text, next, 0x90, 0xBF, 2)),
        0xF1..=0xF3 => whole(4, follow(text, next, 0x80, 0xBF, 2)),
        0xF4..=0xF4 => whole(4, follow(text, next, 0x80, 0x8F, 2)),
        _ => 0,
    }
}

// The length of the character that starts at `at`; 0 where none does.
fn char_length(text: &[u8], at: usize) -> usize
    ensures { result ≡ char_length (drop at text.now) }
{
    if at < text.len() {
        row_length(text, at + 1, text[at])
    } else {
        0
    }
}

// Whether eight bytes from `at` on are a character each: one load and one test for all of them.
fn eight_ascii(text: &[u8], at: usize) -> bool
    requires { at ≤ length text.now }
    ensures { result ≡ fits (replicate 8 ascii) (drop at text.now) }
{
    let Some(bytes) = text[at..].first_chunk::<8>() else {
        return false;
    };
    u64::from_le_bytes(*bytes) & HIGH_BITS == 0
}

// The first place from `from` on whose byte is no character by itself, or the text's end. Most bytes are one, so they are passed in turns of a few
// instructions, and the rows are kept for the others.
fn past_ascii(text: &[u8], from: usize) -> usize
    requires { from ≤ length text.now }
    ensures { result ≡ from + ascii_run (drop from text.now) }
{
    // Two loops over a place and no iterator: `char_length` goes on from that place.
    let mut at = from;
    while eight_ascii(text, at) {
        at += 8;
    }
    while at < text.len() {
        if 0x7F < text[at] {
            return at;
        }
        at += 1;
    }
    at
}

// Whether the text is whole characters from its start to its end. Over a place, since a character's length says where the next one starts; and by the rows
// of the RFC and no function of std, since they are what `utf8-decides` speaks of.
fn is_utf8(text: &[u8]) -> bool
    ensures { result ≡ is_utf8 text.now }
{
    let mut at = past_ascii(text, 0);
    while at < text.len() {
        let n = char_length(text, at);
        if n == 0 {
            return false;
        }
        at = past_ascii(text, at + n);
    }
    true
}

// Whether no tail stands at `at`: in a text that is UTF-8, whether a character starts there or the text ends.
fn no_tail(text: &[u8], at: usize) -> bool
    ensures { result ≡ no_tail text.now at }
{
    !byte_in(text, at, 0x80, 0xBF)
}

// 4: a kind above the last, or Eof.
fn bad_kind(kind: u32) -> bool
    ensures { result ≡ bad_kind kind }
{
    if kind < EOF {
        return false;
    }
    if kind == EOF {
        return true;
    }
    LAST_KIND < kind
}

// Whether a range starts before the last one ended or cuts a character by its start. Most start where the last one ended, which was tested as its end.
fn bad_start(text: &[u8], last: u32, start: u32) -> bool
    requires { no_tail text.now last ≡ true }
    ensures { result ≡ ltb start last || not (no_tail text.now start) }
{
    if start == last {
        return false;
    }
    if start < last {
        return true;
    }
    !no_tail(text, start as usize)
}

// Whether a range leaves the text or cuts a character by its end.
fn bad_end(text: &[u8], end: u32) -> bool
    ensures { result ≡ ltb (length text.now) end || not (no_tail text.now end) }
{
    let to = end as usize;
    if to < text.len() {
        return !no_tail(text, to);
    }
    text.len() < to
}

// 5: a range that is empty or ends before its start, or whose start or end is bad.
fn bad_range(text: &[u8], last: u32, start: u32, end: u32) -> bool
    requires { no_tail text.now last ≡ true }
    ensures { result ≡ bad_range (no_tail text.now) (length text.now) last start end }
{
    if end <= start {
        return true;
    }
    if bad_start(text, last, start) {
        return true;
    }
    bad_end(text, end)
}

fn is_quote(b: u8) -> bool
    ensures { result ≡ is_quote b }
{
    b == b'"' || b == b'\''
}

// Whether the first and the last of two bytes or more are the same quote.
fn quotes(s: &[u8]) -> bool
    ensures { result ≡ quoted s.now }
{
    match s {
        [first, .., last] => is_quote(*first) && first == last,
        _ => false,
    }
}

// The same after a letter.
fn marks(letter: u8, s: &[u8]) -> bool
    ensures { result ≡ marked letter s.now }
{
    match s {
        [first, rest @ ..] => *first == letter && quotes(rest),
        [] => false,
    }
}

// 6: a Str, RawStr or ByteStr that is not quoted as its kind asks.
fn bad_quotes(kind: u32, s: &[u8]) -> bool
    ensures { result ≡ bad_quotes kind s.now }
{
    // The three kinds stand side by side and most tokens are of none of them, which the compiler makes one test of; a `match` took five
    // instructions more for a token.
    if kind < STR {
        return false;
    }
    if BYTE_STR < kind {
        return false;
    }
    if kind == STR {
        return !quotes(s);
    }
    if kind == RAW_STR {
        return !marks(b'r', s);
    }
    !marks(b'b', s)
}

// Whether a token after one that ended at `last` is fit to read: 4, 5 and 6 in order.
fn check_token(text: &[u8], last: u32, kind: u32, start: u32, end: u32) -> Result<(), Refusal>
    requires { no_tail text.now last ≡ true }
    ensures { result ≡ token_fault (no_tail text.now) text.now last kind start end }
{
    if bad_kind(kind) {
        return Err(Refusal::BadKind);
    }
    if bad_range(text, last, start, end) {
        return Err(Refusal::BadRange);
    }
    if bad_quotes(kind, &text[start as usize..end as usize]) {
        return Err(Refusal::BadQuotes);
    }
    Ok(())
}

// The first bad token decides.
fn check_tokens(text: &[u8], tokens: &[u32]) -> Result<(), Refusal>
    requires { no_tail text.now 0 ≡ true }
    ensures { result ≡ tokens_fault (no_tail text.now) text.now 0 tokens.now }
{
    let mut last: u32 = 0;
    for &[kind, start, end] in tokens.as_chunks::<3>().0 {
        check_token(text, last, kind, start, end)?;
        last = end;
    }
    Ok(())
}

// Whether a text and its tokens are fit to read: refusals 1 to 3 in order, then 4 to 6 token by token.
pub fn entry_check(text: &[u8], tokens: &[u32]) -> Result<(), Refusal>
    ensures { result ≡ entry_of text.now tokens.now }
{
    if MAX_TEXT < text.len() {
        return Err(Refusal::TextTooLong);
    }
    if MAX_TOKENS < tokens.len() / 3 {
        return Err(Refusal::TooManyTokens);
    }
    if !is_utf8(text) {
        return Err(Refusal::NotUtf8);
    }
    check_tokens(text, tokens)
}
