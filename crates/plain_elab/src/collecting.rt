//! The texts of units (6.4.5).
ghost use Rattle.std.specs.Prelude.{◌≡◌, OnOk, IfOk, IfErr, map};
ghost use Rattle.c_tree.specs.Trees.{plain_tree, plain_trees};
ghost use Rattle.core_meaning.specs.Linking as spec;
ghost use Rattle.plain_numbers.specs.PlainTexts.{plain_texts, AreNumbered};
ghost use Rattle.plain_elab.specs.TextParts.{is_texts};

use c_tree::{Kind, Tree};
use plain_expressions::text_bytes;
use plain_numbers::Texts;
use plain_scope::ElabError;
use std::alloc::Global;

fn is_texts(kind: &Kind) -> bool
    ensures { result ≡ is_texts kind.now }
{
    match kind {
        Kind::Texts => true,
        _ => false,
    }
}

#[cycle(collecting)]
#[tactic(auto, using(c_tree::specs::TreeLaws::tree_kinds))]
fn add_tree(alloc: Global, texts: &mut Texts, tree: &Tree) -> Result<(), ElabError>
    requires { AreNumbered texts.old }
    ensures numbered { OnOk result (AreNumbered texts.new) }
    ensures texts { OnOk result (plain_texts texts.new ≡ spec.different_texts (plain_texts texts.old) (spec.texts_in (plain_tree tree.now))) }
    ensures memory { IfErr result (λ error. error ≡ ElabError.Memory) }
{
    match tree {
        Tree::Leaf(_) => Ok(()),
        Tree::Node(kind, parts) => {
            if is_texts(kind) {
                texts.add(alloc, text_bytes(alloc, parts)?)?;
            } else {
                add_trees(alloc, texts, parts)?;
            }
            Ok(())
        }
    }
}

#[cycle(collecting)]
fn add_trees(alloc: Global, texts: &mut Texts, trees: &[Tree]) -> Result<(), ElabError>
    requires { AreNumbered texts.old }
    ensures numbered { OnOk result (AreNumbered texts.new) }
    ensures texts { OnOk result (plain_texts texts.new ≡ spec.different_texts (plain_texts texts.old) (spec.texts_in_all (plain_trees trees.now))) }
    ensures memory { IfErr result (λ error. error ≡ ElabError.Memory) }
{
    for tree in trees {
        add_tree(alloc, texts, tree)?;
    }
    Ok(())
}

/// The texts of units, equal ones once.
pub fn texts_of(alloc: Global, units: &[Tree]) -> Result<Texts, ElabError>
    ensures numbered { IfOk result (λ texts. AreNumbered texts) }
    ensures texts { IfOk result (λ texts. plain_texts texts ≡ spec.literals_of (map plain_tree units.now)) }
    ensures memory { IfErr result (λ error. error ≡ ElabError.Memory) }
{
    let mut texts = Texts::new(alloc);
    add_trees(alloc, &mut texts, units)?;
    Ok(texts)
}
