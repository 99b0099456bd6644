//! Operators, and how tightly they hold their operands (6.5.3 to 6.5.14).
ghost use Rattle.std.specs.Prelude.{◌≡◌, map, option_map};
ghost use Rattle.c_text.specs.Expressions as spec;
ghost use Rattle.pp_lines.specs.ExpressionReading as reading;
ghost use Rattle.pp_lines.specs.ExpressionView.{unary_view, binary_view};

/// An operator before its operand.
#[derive(Clone, Copy, Debug, PartialEq, Eq)]
pub enum Unary {
    Plus,
    Minus,
    /// `!`
    Negation,
    /// `~`
    Complement,
}

/// An operator between two operands.
#[derive(Clone, Copy, Debug, PartialEq, Eq)]
pub enum Binary {
    Times,
    Over,
    /// `%`
    Remainder,
    Plus,
    Minus,
    LeftShift,
    RightShift,
    Less,
    Greater,
    AtMost,
    AtLeast,
    Equal,
    Unequal,
    BitsAnd,
    BitsXor,
    BitsOr,
    /// `&&`
    Both,
    /// `||`
    Either,
}

impl Unary {
    fn text(self) -> &'static [u8]
        ensures { result.now ≡ spec.unary_text (unary_view self) }
    {
        match self {
            Unary::Plus => b"+",
            Unary::Minus => b"-",
            Unary::Negation => b"!",
            Unary::Complement => b"~",
        }
    }
}

impl Binary {
    fn text(self) -> &'static [u8]
        ensures { result.now ≡ spec.binary_text (binary_view self) }
    {
        match self {
            Binary::Times => b"*",
            Binary::Over => b"/",
            Binary::Remainder => b"%",
            Binary::Plus => b"+",
            Binary::Minus => b"-",
            Binary::LeftShift => b"<<",
            Binary::RightShift => b">>",
            Binary::Less => b"<",
            Binary::Greater => b">",
            Binary::AtMost => b"<=",
            Binary::AtLeast => b">=",
            Binary::Equal => b"==",
            Binary::Unequal => b"!=",
            Binary::BitsAnd => b"&",
            Binary::BitsXor => b"^",
            Binary::BitsOr => b"|",
            Binary::Both => b"&&",
            Binary::Either => b"||",
        }
    }

    /// How tightly the operator holds its operands. The operators of one level group from the left.
    pub fn level(self) -> u32
        ensures { result ≡ spec.binary_level (binary_view self) }
    {
        match self {
            Binary::Times | Binary::Over | Binary::Remainder => 11,
            Binary::Plus | Binary::Minus => 10,
            Binary::LeftShift | Binary::RightShift => 9,
            Binary::Less | Binary::Greater | Binary::AtMost | Binary::AtLeast => 8,
            Binary::Equal | Binary::Unequal => 7,
            Binary::BitsAnd => 6,
            Binary::BitsXor => 5,
            Binary::BitsOr => 4,
            Binary::Both => 3,
            Binary::Either => 2,
        }
    }
}

fn all_unary() -> &'static [Unary]
    ensures { map unary_view result.now ≡ reading.all_unary }
{
    &[
        Unary::Plus,
        Unary::Minus,
        Unary::Negation,
        Unary::Complement,
    ]
}

fn all_binary() -> &'static [Binary]
    ensures { map binary_view result.now ≡ reading.all_binary }
{
    &[
        Binary::Times,
        Binary::Over,
        Binary::Remainder,
        Binary::Plus,
        Binary::Minus,
        Binary::LeftShift,
        Binary::RightShift,
        Binary::Less,
        Binary::Greater,
        Binary::AtMost,
        Binary::AtLeast,
        Binary::Equal,
        Binary::Unequal,
        Binary::BitsAnd,
        Binary::BitsXor,
        Binary::BitsOr,
        Binary::Both,
        Binary::Either,
    ]
}

fn unary_among(operators: &[Unary], text: &[u8]) -> Option<Unary>
    ensures { option_map unary_view result ≡ reading.spelled_first spec.unary_text text.now (map unary_view operators.now) }
{
    for operator in operators {
        if operator.text() == text {
            return Some(*operator);
        }
    }
    None
}

fn binary_among(operators: &[Binary], text: &[u8]) -> Option<Binary>
    ensures { option_map binary_view result ≡ reading.spelled_first spec.binary_text text.now (map binary_view operators.now) }
{
    for operator in operators {
        if operator.text() == text {
            return Some(*operator);
        }
    }
    None
}

/// The operator of this spelling that stands before an operand.
pub fn unary_of(text: &[u8]) -> Option<Unary>
    ensures { option_map unary_view result ≡ reading.unary_of text.now }
{
    unary_among(all_unary(), text)
}

/// The operator of this spelling that stands between operands.
pub fn binary_of(text: &[u8]) -> Option<Binary>
    ensures { option_map binary_view result ≡ reading.binary_of text.now }
{
    binary_among(all_binary(), text)
}
