//! How directive lines belong to groups.
ghost use Rattle.std.specs.Prelude.{◌≡◌, map};
ghost use Rattle.c_text.specs.Token.{plain_token};
ghost use Rattle.c_text.specs.Trees.{role_of_name, role_of};
ghost use Rattle.unit_files.specs.Roles.{plain_role};

use crate::bad_tokens::is_spelled;
use c_text::{Line, Token};

/// How a directive line belongs to groups: by its name alone.
#[derive(Clone, Copy, Debug, PartialEq, Eq)]
pub enum Role {
    Begins,
    BeginsBranch,
    /// `#else`
    BeginsLast,
    Closes,
    /// It belongs to no group.
    StandsAlone,
}

fn role_of_name(name: &Token) -> Role
    ensures { plain_role result ≡ role_of_name (plain_token name.now) }
{
    if is_spelled(b"if", name) || is_spelled(b"ifdef", name) || is_spelled(b"ifndef", name) {
        Role::Begins
    } else if is_spelled(b"elif", name) {
        Role::BeginsBranch
    } else if is_spelled(b"else", name) {
        Role::BeginsLast
    } else if is_spelled(b"endif", name) {
        Role::Closes
    } else {
        Role::StandsAlone
    }
}

/// The role of a directive line.
pub fn role_of(line: &Line) -> Role
    ensures { plain_role result ≡ role_of (map plain_token line.now.tokens.items) }
{
    match line.tokens.as_slice() {
        [_, name, ..] => role_of_name(name),
        _ => Role::StandsAlone,
    }
}
