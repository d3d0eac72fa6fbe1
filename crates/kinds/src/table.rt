// One table over the 79 kinds, and what is read off it.
ghost use Rattle.std.specs.Prelude.{◌≡◌, get_or};
ghost use Rattle.kinds.specs.Kinds.{is_trivia};
ghost use Rattle.kinds.specs.Operators.{level_of};
ghost use Rattle.kinds.specs.Listing.{name_place, name_bytes};
ghost use Rattle.kinds.specs.Row.{Row};

// An entry is the place of the listing name (two digits), the binary level (one) and 1 for trivia. They are packed, since
// the older kit built a constant array anew at each call; in today's a look-up is a compare and a load (docs/DECISIONS.md).
const TABLE: [u16; 79] = [
    0x0001, // LineComment
    0x0001, // BlockComment
    0x0001, // Whitespace
    0x0001, // EscapedNewline
    0x0100, // Ident
    0x0700, // Int
    0x0b00, // Float
    0x1100, // Str
    0x1100, // RawStr
    0x1500, // ByteStr
    0x0000, // If
    0x0000, // Else
    0x0000, // Match
    0x0000, // Loop
    0x0000, // While
    0x0000, // For
    0x0000, // In
    0x0000, // Break
    0x0000, // Continue
    0x0000, // Return
    0x0000, // Glo
    0x0000, // Import
    0x0000, // As
    0x5630, // Is
    0x2500, // Not
    0x3d20, // And
    0x4110, // Or
    0x0000, // Try
    0x0000, // With
    0x0000, // Fn
    0x0000, // Do
    0x0000, // Effect
    0x1b00, // Null
    0x2000, // True
    0x2000, // False
    0x0000, // Ellipsis
    0x0000, // DoubleColon
    0x0000, // Arrow
    0x0000, // FatArrow
    0x4430, // Eq
    0x4730, // NotEq
    0x4d30, // LtEq
    0x5330, // GtEq
    0x2900, // AddAssign
    0x2d00, // SubAssign
    0x3100, // MulAssign
    0x3500, // DivAssign
    0x3900, // RemAssign
    0x0000, // Comma
    0x0000, // Dot
    0x0000, // OpenParen
    0x0000, // CloseParen
    0x0000, // OpenBrace
    0x0000, // CloseBrace
    0x0000, // OpenBracket
    0x0000, // CloseBracket
    0x0000, // Pound
    0x0000, // Question
    0x0000, // Exclamation
    0x0000, // Colon
    0x0000, // Assign
    0x4a30, // Lt
    0x5030, // Gt
    0x0000, // VBar
    0x2940, // Add
    0x2d40, // Sub
    0x3150, // Mul
    0x3550, // Div
    0x3950, // Rem
    0x0000, // Eol
    0x0000, // Eof
    0x0000, // Unknown
    0x0000, // UnterminatedBlockComment
    0x0000, // EmptyInt
    0x0000, // EmptyExponentFloat
    0x0000, // NonDecimalFloat
    0x0000, // UnterminatedStr
    0x0000, // UnterminatedRawStr
    0x0000, // UnterminatedByteStr
];

// The listing names, each with a space behind it. The first is the empty one.
const NAMES: [u8; 120] =
    *b" Ident Int Float Str Bytes Null Bool Not Add Sub Mul Div Rem And Or Eq Ne Lt Le Gt Ge Is Table Function Effect UserData ";

fn row(kind: u32) -> u16
    ensures { Row kind result }
{
    TABLE.get(kind as usize).copied().unwrap_or(0)
}

pub fn is_trivia(kind: u32) -> bool
    ensures { result ≡ is_trivia kind }
{
    row(kind) % 16 == 1
}

// The level at which a kind binds two operands, 0 where it does not.
pub fn level(kind: u32) -> u8
    ensures { result ≡ level_of kind }
{
    (row(kind) / 16 % 16) as u8
}

// Where the listing name of a kind starts among the names, 0 where it has none.
pub fn name_place(kind: u32) -> usize
    ensures { result ≡ name_place kind }
{
    (row(kind) / 256) as usize
}

// The byte of the names at a place, a space past their end.
pub fn name_byte(place: usize) -> u8
    ensures { result ≡ get_or name_bytes place 32 }
{
    NAMES.get(place).copied().unwrap_or(b' ')
}
