// What an atom, a member and a list are, by the token that each begins with: that one is known by its place in a chain of checks.
ghost use Rattle.parts.specs.Forms.{Stands, Opens};

// The forms of an atom, in the order of the chain of Rust's parse_expr_atom, which `atom` of crates/exprs asks for. Each is named after its first token.
#[derive(Clone, Copy, Debug, PartialEq, Eq)]
pub enum Form {
    OpenParen,
    Ident,
    OpenBrace,
    OpenBracket,
    Fn,
    VBar,
    Do,
    If,
    Match,
    Loop,
    While,
    For,
    Break,
    Continue,
    Return,
}

impl Form {
    // The form at a place of the chain; past its end there is none.
    pub fn at(place: usize) -> Option<Form>
        ensures { Stands place result }
    {
        match place {
            0 => Some(Form::OpenParen),
            1 => Some(Form::Ident),
            2 => Some(Form::OpenBrace),
            3 => Some(Form::OpenBracket),
            4 => Some(Form::Fn),
            5 => Some(Form::VBar),
            6 => Some(Form::Do),
            7 => Some(Form::If),
            8 => Some(Form::Match),
            9 => Some(Form::Loop),
            10 => Some(Form::While),
            11 => Some(Form::For),
            12 => Some(Form::Break),
            13 => Some(Form::Continue),
            14 => Some(Form::Return),
            _ => None,
        }
    }
}

// How a member begins, in the order of the chain that Rust's parse_expr_primary asks for: `[`, `.` and `::`.
#[derive(Clone, Copy, Debug, PartialEq, Eq)]
pub enum Opening {
    Bracket,
    Dot,
    DoubleColon,
}

impl Opening {
    // The opening token at a place of the chain; past its end there is none.
    pub fn at(place: usize) -> Option<Opening>
        ensures { Opens place result }
    {
        match place {
            0 => Some(Opening::Bracket),
            1 => Some(Opening::Dot),
            2 => Some(Opening::DoubleColon),
            _ => None,
        }
    }
}

// The lists of expressions: the arguments of a call, the elements of a list, the properties of a table.
#[derive(Clone, Copy, Debug, PartialEq, Eq)]
pub enum ItemRule {
    Arguments,
    Elements,
    Properties,
}
