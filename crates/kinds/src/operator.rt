// The operators of operator.rs, and the token kinds that stand for them.
ghost use Rattle.std.specs.Prelude.{◌≡◌};
ghost use Rattle.kinds.specs.Operators.{binary_of, compound_of, precedence_of, op_kind};

use super::table::level;
use super::{
    ADD, ADD_ASSIGN, AND, DIV, DIV_ASSIGN, EQ, GT, GT_EQ, IS, LT, LT_EQ, MUL, MUL_ASSIGN, NOT_EQ,
    OR, REM, REM_ASSIGN, SUB, SUB_ASSIGN,
};

// Each has the number of the token kind that it is written with.
#[derive(Clone, Copy, Debug, PartialEq, Eq)]
pub enum BinOp {
    Add = ADD as isize,
    Sub = SUB as isize,
    Mul = MUL as isize,
    Div = DIV as isize,
    Rem = REM as isize,
    And = AND as isize,
    Or = OR as isize,
    Eq = EQ as isize,
    Ne = NOT_EQ as isize,
    Lt = LT as isize,
    Le = LT_EQ as isize,
    Gt = GT as isize,
    Ge = GT_EQ as isize,
    Is = IS as isize,
}

// The operator that goes on with an expression; `is` is told apart by the caller.
pub fn bin_op(kind: u32) -> Option<BinOp>
    ensures { result ≡ binary_of kind }
{
    let Ok(kind) = u8::try_from(kind) else {
        return None;
    };
    match kind {
        ADD => Some(BinOp::Add),
        SUB => Some(BinOp::Sub),
        MUL => Some(BinOp::Mul),
        DIV => Some(BinOp::Div),
        REM => Some(BinOp::Rem),
        AND => Some(BinOp::And),
        OR => Some(BinOp::Or),
        EQ => Some(BinOp::Eq),
        NOT_EQ => Some(BinOp::Ne),
        LT => Some(BinOp::Lt),
        LT_EQ => Some(BinOp::Le),
        GT => Some(BinOp::Gt),
        GT_EQ => Some(BinOp::Ge),
        IS => Some(BinOp::Is),
        _ => None,
    }
}

// The operator of a compound assignment.
pub fn assign_op(kind: u32) -> Option<BinOp>
    ensures { result ≡ compound_of kind }
{
    let Ok(kind) = u8::try_from(kind) else {
        return None;
    };
    match kind {
        ADD_ASSIGN => Some(BinOp::Add),
        SUB_ASSIGN => Some(BinOp::Sub),
        MUL_ASSIGN => Some(BinOp::Mul),
        DIV_ASSIGN => Some(BinOp::Div),
        REM_ASSIGN => Some(BinOp::Rem),
        _ => None,
    }
}

// The kind of the token that an operator is written with: what a record keeps of it. A function of this name, since the rules and the crates above go by it.
pub fn op_kind(op: BinOp) -> u8
    ensures { result ≡ op_kind op }
{
    op as u8
}

pub fn precedence(op: BinOp) -> u8
    ensures { result ≡ precedence_of op }
{
    level(op_kind(op) as u32)
}
