// The kinds of node records. docs/LAYOUT.md says what each one holds; 0 is no record. They are numbers, since records
// have them as words of the C interface, and `close` and its like take any of them.
pub const NULL: u32 = 1;

pub const BOOL: u32 = 2;

pub const INT: u32 = 3;

pub const FLOAT: u32 = 4;

pub const STR: u32 = 5;

pub const BYTES: u32 = 6;

pub const IDENT: u32 = 7;

pub const PAREN: u32 = 8;

pub const EXPR_BLOCK: u32 = 9;

pub const FN: u32 = 10;

pub const EXPR_EFFECT: u32 = 11;

pub const TABLE: u32 = 12;

pub const LIST: u32 = 13;

pub const UNARY: u32 = 14;

pub const BINARY: u32 = 15;

pub const TYPE_CHECK: u32 = 16;

pub const MEMBER: u32 = 17;

pub const CALL: u32 = 18;

pub const IF: u32 = 19;

pub const MATCH: u32 = 20;

pub const LOOP: u32 = 21;

pub const WHILE: u32 = 22;

pub const FOR: u32 = 23;

pub const BREAK: u32 = 24;

pub const CONTINUE: u32 = 25;

pub const RETURN: u32 = 26;

pub const IMPORT: u32 = 27;

pub const GLO_ASSIGN: u32 = 28;

pub const ASSIGN: u32 = 29;

pub const ASSIGN_OP: u32 = 30;

pub const ASSIGN_UNPACK: u32 = 31;

pub const ASSIGN_MULTI: u32 = 32;

pub const PROGRAM: u32 = 33;

pub const BLOCK: u32 = 34;

pub const FUNCTION: u32 = 35;

pub const CLOSURE: u32 = 36;

pub const DO: u32 = 37;

pub const EFFECT: u32 = 38;

pub const EFFECT_HANDLER: u32 = 39;

pub const TYPED_IDENT: u32 = 40;

pub const TABLE_PROPERTY: u32 = 41;

pub const MATCH_CASE: u32 = 42;

pub const IMPORT_ITEM: u32 = 43;

pub const PATTERN_TABLE: u32 = 44;

pub const PATTERN_LIST: u32 = 45;

pub const TABLE_PATTERN_PAIR: u32 = 46;

pub const TY_PAREN: u32 = 47;

pub const TY_TABLE: u32 = 48;

pub const TY_FUNCTION: u32 = 49;

pub const UNION: u32 = 50;

pub const TABLE_TY_PAIR: u32 = 51;

pub const TABLE_TY_OTHER: u32 = 52;
