// The types that a value can be checked for, and the words for them after `is`.
ghost use Rattle.std.specs.Prelude.{◌≡◌};
ghost use Rattle.kinds.specs.Text.{part};
ghost use Rattle.kinds.specs.Spelling.{equal};
ghost use Rattle.kinds.specs.TypeWords.{type_word, type_number, type_name_place};

// In the order of the numbers that a record keeps of them, from 0 on.
#[derive(Clone, Copy, Debug, PartialEq, Eq)]
pub enum ValueType {
    Null,
    Bool,
    Int,
    Float,
    Str,
    Bytes,
    Table,
    Function,
    Effect,
    UserData,
}

// Where the listing name of each type starts among the names.
const PLACES: [usize; 10] = [27, 32, 7, 11, 17, 21, 89, 95, 104, 111];

// The bytes of the text from `start` up to `end`. Past the end of the text there is nothing.
pub fn part(text: &[u8], start: u32, end: u32) -> &[u8]
    ensures { result.now ≡ part text.now start end }
{
    let to = text.len().min(end as usize);
    let from = to.min(start as usize);
    &text[from..to]
}

// Whether the bytes of the text from `start` up to `end` are those of the word.
pub fn same_bytes(text: &[u8], start: u32, end: u32, word: &[u8]) -> bool
    ensures { result ≡ equal (part text.now start end) word.now }
{
    part(text, start, end) == word
}

// The type that a range of the text names. `null` has a kind of its own and is no word here. Tests in a row and no `match`, since Rattle tells byte
// strings in patterns apart byte by byte, which made 46 ways out to prove.
pub fn type_word(text: &[u8], start: u32, end: u32) -> Option<ValueType>
    ensures { result ≡ type_word (part text.now start end) }
{
    if same_bytes(text, start, end, b"bool") {
        return Some(ValueType::Bool);
    }
    if same_bytes(text, start, end, b"int") {
        return Some(ValueType::Int);
    }
    if same_bytes(text, start, end, b"float") {
        return Some(ValueType::Float);
    }
    if same_bytes(text, start, end, b"str") {
        return Some(ValueType::Str);
    }
    if same_bytes(text, start, end, b"bytes") {
        return Some(ValueType::Bytes);
    }
    if same_bytes(text, start, end, b"table") {
        return Some(ValueType::Table);
    }
    if same_bytes(text, start, end, b"function") {
        return Some(ValueType::Function);
    }
    if same_bytes(text, start, end, b"effect") {
        return Some(ValueType::Effect);
    }
    if same_bytes(text, start, end, b"userdata") {
        return Some(ValueType::UserData);
    }
    None
}

// The number that a record keeps of a type. A function of this name, since the rules and the crates above go by it.
pub fn value_type_number(v: ValueType) -> u8
    ensures { result ≡ type_number v }
{
    v as u8
}

// Where the listing name of the type with a number starts among the names, 0 where no type has it: the empty name stands there, so that no caller asks.
pub fn value_type_name_place(number: u32) -> usize
    ensures { result ≡ type_name_place number }
{
    PLACES.get(number as usize).copied().unwrap_or(0)
}
