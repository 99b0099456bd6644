//! What expressions that are no numbers are to first values, by their forms (6.6).
ghost use Rattle.std.specs.Prelude.{◌≡◌};
ghost use Rattle.c_text.specs.Token.{plain_token};
ghost use Rattle.c_tree.specs.Trees.{node, plain_tree, plain_trees};
ghost use Rattle.cond_initialisers.specs.Forms as spec;

use c_text::Token;
use c_tree::{Kind, Terminal, Tree, terminal};

/// What an expression that is no number is to a first value, parentheses not counting.
#[derive(Clone, Copy, Debug)]
pub enum Form {
    /// A name, which gives an address where it is that of an array.
    Name,
    /// Texts, or the address of a name.
    Address,
    Other,
}

fn single(token: &Token) -> Form
    ensures { result ≡ spec.single (plain_token token.now) }
{
    if Terminal::Name.is(terminal(token)) {
        Form::Name
    } else {
        Form::Other
    }
}

/// What `&` before an expression gives.
fn pointed(inner: Form) -> Form
    ensures { result ≡ spec.pointed inner }
{
    match inner {
        Form::Name => Form::Address,
        Form::Address | Form::Other => Form::Other,
    }
}

fn prefixed(sign: &Token, inner: Form) -> Form
    ensures { result ≡ spec.prefixed (plain_token sign.now) inner }
{
    match sign.text.as_slice() {
        [b'&'] => pointed(inner),
        _ => Form::Other,
    }
}

#[tactic(auto, using(c_tree::specs::TreeLaws::tree_kinds))]
fn signed(sign: &Tree, inner: Form) -> Form
    ensures { result ≡ spec.signed (plain_tree sign.now) inner }
{
    match sign {
        Tree::Leaf(token) => prefixed(token, inner),
        Tree::Node(..) => Form::Other,
    }
}

#[cycle(form)]
#[tactic(auto, using(c_tree::specs::TreeLaws::tree_kinds, crate::proofs::FormLaws::no_form))]
pub(crate) fn form_of(tree: &Tree) -> Form
    ensures { result ≡ spec.form_of (plain_tree tree.now) }
{
    match tree {
        Tree::Leaf(token) => single(token),
        Tree::Node(kind, parts) => match kind {
            Kind::Texts => Form::Address,
            Kind::Parenthesized => form_inside(parts),
            Kind::Prefix => form_behind(parts),
            _ => Form::Other,
        },
    }
}

/// The form of what stands in parentheses.
#[cycle(form)]
#[tactic(auto, using(crate::proofs::FormLaws::no_form_inside, crate::proofs::FormLaws::form_in_middle))]
fn form_inside(parts: &[Tree]) -> Form
    ensures { result ≡ spec.form_of (node Kind.Parenthesized (plain_trees parts.now)) }
{
    if parts.len() == 3 {
        form_of(&parts[1])
    } else {
        Form::Other
    }
}

/// The form of what stands behind an operator.
#[cycle(form)]
#[tactic(auto, using(crate::proofs::FormLaws::no_form_behind, crate::proofs::FormLaws::form_at_end))]
fn form_behind(parts: &[Tree]) -> Form
    ensures { result ≡ spec.form_of (node Kind.Prefix (plain_trees parts.now)) }
{
    if parts.len() == 2 {
        let inner = form_of(&parts[1]);
        signed(&parts[0], inner)
    } else {
        Form::Other
    }
}
