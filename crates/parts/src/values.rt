// What an expression answers.
ghost use Rattle.std.specs.Prelude.{◌≡◌};
ghost use Rattle.parts.specs.Values.{link_of, to_assign_left};

use cursor::Kids;

// What is still open of a Call: its last child, with the handlers that were counted behind it; its arguments, and whether it has a trailing lambda.
#[derive(Clone, Copy)]
pub struct Called {
    pub kids: Kids,
    pub arguments: u32,
    pub lambda: bool,
}

// The link to an expression's record, and which expression it is as far as a rule asks: a plain name, a member of a name without `?`, a Call.
#[derive(Clone, Copy)]
pub enum Expr {
    Name(u32),
    NameMember(u32),
    Call(u32, Called),
    Other(u32),
}

impl Expr {
    // The link to its record.
    pub fn link(self) -> u32
        ensures { result ≡ link_of self }
    {
        match self {
            Expr::Name(link) => link,
            Expr::NameMember(link) => link,
            Expr::Call(link, _) => link,
            Expr::Other(link) => link,
        }
    }

    // Rust's expr_to_assign_left: a name, or a member of a name without `?`, whose record it takes over.
    pub fn assign_left(self) -> Option<u32>
        ensures { result ≡ to_assign_left self }
    {
        match self {
            Expr::Name(link) => Some(link),
            Expr::NameMember(link) => Some(link),
            Expr::Call(_, _) => None,
            Expr::Other(_) => None,
        }
    }
}
