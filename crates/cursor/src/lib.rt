// The parser over a sheet: where it stands, the buffers that it fills, and how its rules end. The sheet does not change while it is
// read, so it stands apart from the parser: each rule takes both, and none has to say that the sheet stayed as it was.
#![tactic(auto)]

pub mod checks;
pub mod nodes;
pub mod reader;
pub mod records;
pub mod tokens;

// The words of a token: its kind, start and end.
pub const TOKEN_WORDS: usize = 3;

// The longest live list of expected kinds.
pub const LIVE_ROOM: usize = 1024;

// What the caller allows.
#[derive(Clone, Copy)]
pub struct Limits {
    pub allowance: u32,
}

// What is read: the text, its tokens and the caller's limits.
#[derive(Clone, Copy)]
pub struct Sheet<'a> {
    pub text: &'a [u8],
    pub tokens: &'a [u32],
    pub limits: Limits,
}

// Where the reading stands: the position in the token list, the end of the last token read, the readings, and how much of the node,
// error and expected buffers and of the live list is in use. A rule that is tried keeps it as a mark to come back to.
#[derive(Clone, Copy)]
pub struct State {
    pub at: usize,
    pub prev: u32,
    pub reads: u32,
    pub nodes: u32,
    pub errors: u32,
    pub wanted: u32,
    pub live: u32,
}

// Where a reading begins: before the first token, with nothing read, built or logged.
pub const BEGIN: State = State {
    at: 0,
    prev: 0,
    reads: 0,
    nodes: 0,
    errors: 0,
    wanted: 0,
    live: 0,
};

// The state, the caller's three buffers, and the live list of the kinds that were expected here. The buffers are lent, since nothing is allocated.
#[derive(Drop)]
pub struct Parser<'a> {
    pub nodes: &'a mut [u32],
    pub errors: &'a mut [u32],
    pub expected: &'a mut [u8],
    pub live: [u8; LIVE_ROOM],
    pub state: State,
}

#[derive(Clone, Copy)]
pub struct Span {
    pub start: u32,
    pub end: u32,
}

// Rust's CompilerError, not yet logged: a kind that was found (class 0) or an integer's fault (class 1), and whether the live list is its
// list of expected kinds. The class is a number, since it is a word of the error record, as C has it.
#[derive(Clone, Copy)]
pub struct Fault {
    pub class: u32,
    pub found: u32,
    pub span: Span,
    pub listed: bool,
}

// What ends the whole reading: no room for a node record, for an error record or its kinds, for a level, for a reading, in the live list.
#[derive(Clone, Copy, Debug, PartialEq, Eq)]
pub enum Refusal {
    NoRoom,
    ErrorsFull,
    TooDeep,
    AllSpent,
    ListFull,
}

// How a rule ends where it does not succeed: Rust's Err, which was met where the parser then stands, or a refusal.
#[derive(Clone, Copy)]
pub enum Stop {
    Fault(Fault),
    Refused(Refusal),
}

// A row of children under construction: links to the first and the last (0: none, otherwise the index and 1), and how many there are. A link is 0
// and no Option, since it is a word of a record, as C has it.
#[derive(Clone, Copy)]
pub struct Kids {
    pub first: u32,
    pub last: u32,
    pub count: u32,
}

// What a node record says besides its links.
#[derive(Clone, Copy)]
pub struct Label {
    pub kind: u32,
    pub start: u32,
    pub end: u32,
    pub one: u32,
    pub two: u32,
    pub flags: u32,
}
