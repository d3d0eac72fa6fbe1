// The token kinds, the operators and the type words: what is fixed before any text is read.
#![tactic(auto)]

pub mod operator;
pub mod table;
pub mod types;

pub use operator::{BinOp, assign_op, bin_op, op_kind, precedence};
pub use table::{is_trivia, level, name_byte, name_place};
pub use types::{ValueType, part, same_bytes, type_word, value_type_name_place, value_type_number};

// The numbers of the token kinds, counted from 0 as token.rs declares them. They stay numbers: tokens and records have them as words of the C
// interface, and a word of a token may be no kind at all.
pub const LINE_COMMENT: u8 = 0;

pub const BLOCK_COMMENT: u8 = 1;

pub const WHITESPACE: u8 = 2;

pub const ESCAPED_NEWLINE: u8 = 3;

pub const IDENT: u8 = 4;

pub const INT: u8 = 5;

pub const FLOAT: u8 = 6;

pub const STR: u8 = 7;

pub const RAW_STR: u8 = 8;

pub const BYTE_STR: u8 = 9;

pub const IF: u8 = 10;

pub const ELSE: u8 = 11;

pub const MATCH: u8 = 12;

pub const LOOP: u8 = 13;

pub const WHILE: u8 = 14;

pub const FOR: u8 = 15;

pub const IN: u8 = 16;

pub const BREAK: u8 = 17;

pub const CONTINUE: u8 = 18;

pub const RETURN: u8 = 19;

pub const GLO: u8 = 20;

pub const IMPORT: u8 = 21;

pub const AS: u8 = 22;

pub const IS: u8 = 23;

pub const NOT: u8 = 24;

pub const AND: u8 = 25;

pub const OR: u8 = 26;

pub const TRY: u8 = 27;

pub const WITH: u8 = 28;

pub const FN: u8 = 29;

pub const DO: u8 = 30;

pub const EFFECT: u8 = 31;

pub const NULL: u8 = 32;

pub const TRUE: u8 = 33;

pub const FALSE: u8 = 34;

pub const ELLIPSIS: u8 = 35;

pub const DOUBLE_COLON: u8 = 36;

pub const ARROW: u8 = 37;

pub const FAT_ARROW: u8 = 38;

pub const EQ: u8 = 39;

pub const NOT_EQ: u8 = 40;

pub const LT_EQ: u8 = 41;

pub const GT_EQ: u8 = 42;

pub const ADD_ASSIGN: u8 = 43;

pub const SUB_ASSIGN: u8 = 44;

pub const MUL_ASSIGN: u8 = 45;

pub const DIV_ASSIGN: u8 = 46;

pub const REM_ASSIGN: u8 = 47;

pub const COMMA: u8 = 48;

pub const DOT: u8 = 49;

pub const OPEN_PAREN: u8 = 50;

pub const CLOSE_PAREN: u8 = 51;

pub const OPEN_BRACE: u8 = 52;

pub const CLOSE_BRACE: u8 = 53;

pub const OPEN_BRACKET: u8 = 54;

pub const CLOSE_BRACKET: u8 = 55;

pub const POUND: u8 = 56;

pub const QUESTION: u8 = 57;

pub const EXCLAMATION: u8 = 58;

pub const COLON: u8 = 59;

pub const ASSIGN: u8 = 60;

pub const LT: u8 = 61;

pub const GT: u8 = 62;

pub const V_BAR: u8 = 63;

pub const ADD: u8 = 64;

pub const SUB: u8 = 65;

pub const MUL: u8 = 66;

pub const DIV: u8 = 67;

pub const REM: u8 = 68;

pub const EOL: u8 = 69;

pub const EOF: u8 = 70;

pub const UNKNOWN: u8 = 71;

pub const UNTERMINATED_BLOCK_COMMENT: u8 = 72;

pub const EMPTY_INT: u8 = 73;

pub const EMPTY_EXPONENT_FLOAT: u8 = 74;

pub const NON_DECIMAL_FLOAT: u8 = 75;

pub const UNTERMINATED_STR: u8 = 76;

pub const UNTERMINATED_RAW_STR: u8 = 77;

pub const UNTERMINATED_BYTE_STR: u8 = 78;
