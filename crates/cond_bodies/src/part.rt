/// What stands at a place of a body: a parameter by its number, or another token.
#[derive(Clone, Copy, PartialEq, Eq)]
pub enum Part {
    Token,
    Parameter(usize),
}
