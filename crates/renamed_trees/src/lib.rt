//! Syntax trees of renamed tokens (ISO/IEC 9899:2011, 6.4.2.1, 6.5 to 6.9). Here are the definitions (in `specs/`) and the laws,
//! each the contract of a function without a body.
#![tactic(auto)]

ghost use Rattle.renamed_trees.specs.Laws.{TreesAreRenamed, RefusalsAreKept};

/// Where only names are renamed, the tree of the renamed tokens is the renamed tree and no other, and they have one exactly where
/// the tokens before had one.
pub fn trees_are_renamed()
    ensures { TreesAreRenamed }
{
    c_tree::what_is_read_is_spelt();
    c_tree::what_is_spelt_is_read();
}

/// Tokens that have no tree are refused after the renaming as before: at the same token, or as too high.
pub fn refusals_are_kept()
    ensures { RefusalsAreKept }
{
    c_tree::what_is_read_is_spelt();
    c_tree::what_is_spelt_is_read();
    c_tree::what_can_be_read_begins_a_unit();
    c_tree::what_begins_a_unit_can_be_read();
}
