//! What the grammar tells apart in tokens.

ghost use Rattle.std.specs.Prelude.{◌≡◌};
ghost use Rattle.c_tree.specs.Terminals.{number, same};

/// What a token is to the grammar. Operators that stand in the same places are one terminal.
#[derive(Clone, Copy, Debug, PartialEq, Eq)]
pub enum Terminal {
    Name,
    Number,
    Character,
    Text,
    OpenParenthesis,
    CloseParenthesis,
    OpenBracket,
    CloseBracket,
    OpenBrace,
    CloseBrace,
    Semicolon,
    Comma,
    Question,
    Colon,
    /// `.` or `->`
    Select,
    /// `++` or `--`
    Step,
    Ampersand,
    Star,
    /// `+` or `-`
    Sign,
    /// `~` or `!`
    Negation,
    /// `/` or `%`
    Divide,
    /// `<<` or `>>`
    Shift,
    /// `<`, `>`, `<=` or `>=`
    Relation,
    /// `==` or `!=`
    Equality,
    Caret,
    Bar,
    AndAnd,
    OrOr,
    /// `=`
    Assign,
    /// `*=` and its kin
    CompoundAssign,
    Void,
    Char,
    Unsigned,
    Int,
    Long,
    Struct,
    Static,
    Extern,
    Inline,
    If,
    Else,
    While,
    Do,
    For,
    /// `break` or `continue`
    Jump,
    Return,
    /// A token that stands in no unit.
    Other,
}

impl Terminal {
    /// A number of its own, for comparing.
    pub fn number(self) -> u8
        ensures { result ≡ number self }
    {
        self as u8
    }

    /// Whether the two are the same.
    pub fn is(self, other: Terminal) -> bool
        ensures { result ≡ same self other }
    {
        self.number() == other.number()
    }
}
