// The words of the listing, as fixed byte strings.
ghost use Rattle.std.specs.Prelude.{◌≡◌, get_or};
ghost use Rattle.listing.specs.Page.{emits};
ghost use Rattle.listing.specs.Names.{letters, name_from, record_name, unary_name, detail_name, word_of};

use crate::page::Page;
use cursor::nodes::{ASSIGN_OP, BINARY, TYPE_CHECK, UNARY};
use kinds::{name_byte, name_place, value_type_name_place};

// How many bytes the names of the token kinds and types take, and how many all names.
const KIND_NAMES: usize = 120;

const ALL_NAMES: usize = 410;

// The other names, each with a space behind it. Their places go on where those of the kinds end.
const NAMES: [u8; 290] =
    *b"Paren Block Fn List Unary Binary TypeCheck Member Call If Match Loop While For Break Continue Return Import GloAssign Assign AssignOp AssignUnpack AssignMulti Program Closure Do EffectHandler TypedIdent TableProperty MatchCase ImportItem TablePatternPair Union TableTyPair TableTyOther Neg ";

// Where the name of each record kind starts; that of 0, which is no record, is empty. Places, and no slices of their own: the theorems
// `two-places` and `one-record-place` speak of places, and the names of the token kinds, which crate `kinds` keeps, are told so too.
const PLACES: [usize; 53] = [
    0, 27, 32, 7, 11, 17, 21, 1, 120, 126, 132, 104, 89, 135, 140, 146, 153, 163, 170, 175, 178,
    184, 189, 195, 199, 205, 214, 221, 228, 238, 245, 254, 267, 279, 126, 95, 287, 295, 104, 298,
    312, 323, 337, 347, 89, 135, 358, 120, 89, 95, 375, 381, 393,
];

// UnOp's cases: the operators' token kinds, and where their names start.
const NOT: u32 = kinds::NOT as u32;

const NEG: u32 = kinds::SUB as u32;

const NOT_PLACE: usize = 37;

const NEG_PLACE: usize = 406;

// The byte of all names at a place, a space past their end.
fn letter(place: usize) -> u8
    ensures { result ≡ get_or letters place 32 }
{
    if place < KIND_NAMES {
        return name_byte(place);
    }
    NAMES.get(place - KIND_NAMES).copied().unwrap_or(b' ')
}

// The name that starts at a place.
pub fn put_name(page: &mut Page, place: usize)
    ensures { page.new ≡ emits (name_from place) page.old }
{
    for at in place..ALL_NAMES {
        let b = letter(at);
        if b == b' ' {
            return;
        }
        page.put_byte(b);
    }
}

// The place of a record kind's name.
pub fn record_place(kind: u32) -> usize
    ensures { name_from result ≡ record_name kind }
{
    PLACES.get(kind as usize).copied().unwrap_or(0)
}

// The place of a unary operator's name, by its token kind.
fn unary_place(op: u32) -> usize
    ensures { name_from result ≡ unary_name op }
{
    match op {
        NOT => NOT_PLACE,
        NEG => NEG_PLACE,
        _ => 0,
    }
}

// The place of the name that a record of this kind has as its detail, with this word of its own: an operator's or a type's.
pub fn detail_place(kind: u32, one: u32) -> Option<usize>
    ensures { word_of result ≡ detail_name kind one }
{
    match kind {
        UNARY => Some(unary_place(one)),
        BINARY | ASSIGN_OP => Some(name_place(one)),
        TYPE_CHECK => Some(value_type_name_place(one)),
        _ => None,
    }
}
