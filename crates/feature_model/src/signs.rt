//! The signs of a constraint's text.
ghost use Rattle.std.specs.Prelude.{◌≡◌};
ghost use Rattle.feature_model.specs.Bytes.{start_of, next_of};

use c_names::is_nondigit;

/// A token that is no name.
#[derive(Clone, Copy, Debug, PartialEq, Eq)]
pub enum Sign {
    /// `!`
    Not,
    /// `&&`
    And,
    /// `||`
    Or,
    /// `->`
    Implies,
    /// `<->`
    Equals,
    /// `(`
    Opens,
    /// `)`
    Closes,
}

/// The beginning of a sign of several bytes.
#[derive(Clone, Copy, Debug, PartialEq, Eq)]
pub enum Front {
    /// `&`
    Ampersand,
    /// `|`
    Bar,
    /// `-`
    Dash,
    /// `<`
    Less,
    /// `<-`
    LessDash,
}

/// What a byte between tokens begins.
#[derive(Clone, Copy, Debug, PartialEq, Eq)]
pub enum Start {
    Blank,
    Letter,
    Whole(Sign),
    Part(Front),
    Nothing,
}

/// What the byte begins where no token is begun.
pub fn start_of(byte: u8) -> Start
    ensures { result ≡ start_of byte }
{
    match byte {
        b' ' | b'\t' => Start::Blank,
        b'!' => Start::Whole(Sign::Not),
        b'(' => Start::Whole(Sign::Opens),
        b')' => Start::Whole(Sign::Closes),
        b'&' => Start::Part(Front::Ampersand),
        b'|' => Start::Part(Front::Bar),
        b'-' => Start::Part(Front::Dash),
        b'<' => Start::Part(Front::Less),
        _ if is_nondigit(byte) => Start::Letter,
        _ => Start::Nothing,
    }
}

/// What a begun sign is with one byte more.
pub fn next_of(front: Front, byte: u8) -> Start
    ensures { result ≡ next_of front byte }
{
    match (front, byte) {
        (Front::Ampersand, b'&') => Start::Whole(Sign::And),
        (Front::Bar, b'|') => Start::Whole(Sign::Or),
        (Front::Dash, b'>') => Start::Whole(Sign::Implies),
        (Front::Less, b'-') => Start::Part(Front::LessDash),
        (Front::LessDash, b'>') => Start::Whole(Sign::Equals),
        _ => Start::Nothing,
    }
}
