// An integer's spelling to its sign and magnitude, or to its fault, read from the text where it stands.
#![tactic(auto)]

ghost use Rattle.std.specs.Prelude.{◌≡◌, ◌∷◌, ◌*◌, ◌-◌, ◌^◌, ◌<◌, ◌≤◌, leb};
ghost use Rattle.kinds.specs.Text.{part};
ghost use Rattle.ints.specs.Spelling.{radix_by};
ghost use Rattle.ints.specs.Reading.{unread, Prefixed, grown};
ghost use Rattle.ints.specs.Answer.{largest, beyond, number_of, afterwards, from_str_radix, int_of, fault_number};

use kinds::part;

mod kept;

use kept::Kept;

// The sign that a spelling has. It is kept beside the magnitude, since callers treat `-` before and inside a literal differently.
#[derive(Clone, Copy, Debug, PartialEq, Eq)]
pub enum Sign {
    Absent,
    Plus,
    Minus,
}

// The faults with their numbers in listings.
#[derive(Clone, Copy, Debug, PartialEq, Eq)]
pub enum IntFault {
    Empty = 0,
    InvalidDigit = 1,
    TooLarge = 2,
    TooSmall = 3,
}

// A magnitude is at most 2^63, and 2^63 only with Minus.
#[derive(Clone, Copy, Debug, PartialEq, Eq)]
pub struct Int {
    pub sign: Sign,
    pub magnitude: u64,
}

impl Sign {
    // The largest magnitude that an i64 has with this sign.
    fn largest(self) -> u64
        ensures { result ≡ largest self }
    {
        match self {
            Sign::Absent | Sign::Plus => 0x7fff_ffff_ffff_ffff,
            Sign::Minus => 0x8000_0000_0000_0000,
        }
    }

    // What a larger magnitude is.
    fn beyond(self) -> IntFault
        ensures { result ≡ beyond self }
    {
        match self {
            Sign::Absent | Sign::Plus => IntFault::TooLarge,
            Sign::Minus => IntFault::TooSmall,
        }
    }
}

#[tactic(auto, unfolding(crate::specs::Spelling::radix_by))]
fn radix_by(letter: u8) -> Option<u32>
    ensures { result ≡ radix_by letter }
{
    match letter {
        b'x' => Some(16),
        b'o' => Some(8),
        b'b' => Some(2),
        _ => None,
    }
}

// The radix that a prefix names, and what stands after the prefix.
fn prefixed(bytes: Kept<'_>) -> Option<(u32, Kept<'_>)>
    ensures { Prefixed (unread bytes.entry) result }
{
    let mut rest = bytes;
    if rest.next()? != b'0' {
        return None;
    }
    let radix = radix_by(rest.next()?)?;
    Some((radix, rest))
}

// Whether one more place keeps the number within the limit. Few numbers are so large that this takes a division, and `checked_mul` multiplies twice.
fn has_room(limit: u64, radix: u32, size: u64) -> bool
    requires { (1 < radix) × (radix ≤ 16) × (2 ^ 63 - 1 ≤ limit) }
    ensures { result ≡ leb (size * radix) limit }
{
    size < 0x0800_0000_0000_0000 || size <= limit / u64::from(radix)
}

// The number so far with one more digit behind it.
fn grown(size: u64, b: u8, radix: u32, sign: Sign) -> Result<u64, IntFault>
    requires radix { (1 < radix) × (radix ≤ 16) }
    requires size { size ≤ largest sign }
    ensures { result ≡ grown radix sign size b }
{
    let digit = char::from(b).to_digit(radix).ok_or(IntFault::InvalidDigit)?;
    if !has_room(sign.largest(), radix, size) {
        return Err(sign.beyond());
    }
    let more = size * u64::from(radix) + u64::from(digit);
    if sign.largest() < more {
        return Err(sign.beyond());
    }
    Ok(more)
}

fn number(first: u8, rest: Kept<'_>, radix: u32, sign: Sign) -> Result<Int, IntFault>
    requires { (1 < radix) × (radix ≤ 16) }
    ensures { result ≡ number_of radix sign (first ∷ unread rest.entry) }
{
    let mut magnitude = grown(0, first, radix, sign)?;
    for b in rest {
        magnitude = grown(magnitude, b, radix, sign)?;
    }
    Ok(Int { sign, magnitude })
}

// What stands after a sign, which must not stand alone.
fn after_sign(rest: Kept<'_>, radix: u32, sign: Sign) -> Result<Int, IntFault>
    requires { (1 < radix) × (radix ≤ 16) }
    ensures { result ≡ afterwards radix sign (unread rest.entry) }
{
    let mut rest = rest;
    let first = rest.next().ok_or(IntFault::InvalidDigit)?;
    number(first, rest, radix, sign)
}

fn from_str_radix(bytes: Kept<'_>, radix: u32) -> Result<Int, IntFault>
    requires { (1 < radix) × (radix ≤ 16) }
    ensures { result ≡ from_str_radix radix (unread bytes.entry) }
{
    let mut rest = bytes;
    let first = rest.next().ok_or(IntFault::Empty)?;
    match first {
        b'+' => after_sign(rest, radix, Sign::Plus),
        b'-' => after_sign(rest, radix, Sign::Minus),
        _ => number(first, rest, radix, Sign::Absent),
    }
}

// The integer that the bytes of `text` from `start` up to `end` spell. Past the end of the text there is nothing.
pub fn int_value(text: &[u8], start: u32, end: u32) -> Result<Int, IntFault>
    ensures { result ≡ int_of (part text.now start end) }
{
    let all = Kept::of(part(text, start, end));
    let (radix, bytes) = prefixed(all).unwrap_or((10, all));
    from_str_radix(bytes, radix)
}

// The fault's number in listings. A function of this name, since the rules and the crates above go by it.
pub fn fault_number(f: IntFault) -> u8
    ensures { result ≡ fault_number f }
{
    f as u8
}
