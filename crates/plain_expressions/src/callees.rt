//! What a call calls (6.5.2.2).
ghost use Rattle.std.specs.Prelude.{◌≡◌, Some, option_map};
ghost use Rattle.c_text.specs.Token.{plain_token};
ghost use Rattle.c_tree.specs.Trees.{node, plain_tree, plain_trees};
ghost use Rattle.core_meaning.specs.Entities.{local_in};
ghost use Rattle.core_meaning.specs.Expressions as spec;
ghost use Rattle.plain_scope.specs.PlainScope.{plain_scope, plain_file_name};
ghost use Rattle.plain_expressions.specs.PlainSteps.{plain_callee};

use c_text::Token;
use c_tree::{Kind, Tree};
use plain_scope::{FileName, Scope, Signature, Sort};

/// A called function, by its name in parentheses or not.
#[derive(Drop)]
pub struct Callee<'s, 't> {
    pub name: &'t Token,
    pub signature: &'s Signature,
}

#[cycle(callee)]
#[tactic(auto, using(c_tree::specs::TreeLaws::tree_kinds, crate::proofs::NodeLaws::no_callee))]
pub fn called_function<'s, 't>(scope: &'s Scope, tree: &'t Tree) -> Option<Callee<'s, 't>>
    ensures { option_map plain_callee result ≡ spec.callee (plain_scope scope.now) (plain_tree tree.now) }
{
    match tree {
        Tree::Leaf(token) => named_callee(scope, token),
        Tree::Node(kind, parts) => match kind {
            Kind::Parenthesized => callee_inside(scope, parts),
            _ => None,
        },
    }
}

#[cycle(callee)]
#[tactic(auto, using(crate::proofs::NodeLaws::callee_of_parts, crate::proofs::NodeLaws::callee_in_middle))]
fn callee_inside<'s, 't>(scope: &'s Scope, parts: &'t [Tree]) -> Option<Callee<'s, 't>>
    ensures { option_map plain_callee result ≡ spec.callee (plain_scope scope.now) (node Kind.Parenthesized (plain_trees parts.now)) }
{
    if parts.len() == 3 {
        called_function(scope, &parts[1])
    } else {
        None
    }
}

fn callee_of<'s, 't>(name: &'t Token, found: &'s FileName) -> Option<Callee<'s, 't>>
    ensures { option_map plain_callee result ≡ spec.callee_of_name (plain_token name.now) (Some (plain_file_name found.now)) }
{
    match &found.sort {
        Sort::Function(signature) => Some(Callee { name, signature }),
        Sort::Variable(_) => None,
    }
}

fn callee_at_file_scope<'s, 't>(scope: &'s Scope, name: &'t Token) -> Option<Callee<'s, 't>>
    ensures { option_map plain_callee result ≡ spec.callee_of_name (plain_token name.now) ((plain_scope scope.now).file_names name.now.text.items) }
{
    match scope.file_names.get(name.text.as_slice()) {
        Some(found) => callee_of(name, found),
        None => None,
    }
}

fn named_callee<'s, 't>(scope: &'s Scope, token: &'t Token) -> Option<Callee<'s, 't>>
    ensures { option_map plain_callee result ≡ spec.callee_unless_local (plain_scope scope.now) (plain_token token.now) (local_in (plain_scope scope.now).blocks token.now.text.items) }
{
    match scope.local(token.text.as_slice()) {
        Some(_) => None,
        None => callee_at_file_scope(scope, token),
    }
}
