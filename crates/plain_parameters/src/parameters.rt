//! Parameters (6.7.6.3).
ghost use Rattle.std.specs.Prelude.{◌≡◌, ◌∷◌, [], map, option_map, OnOk, MatchResult};
ghost use Rattle.std.specs.List.{list_any};
ghost use Rattle.c_text.specs.Token.{plain_token};
ghost use Rattle.c_types.specs.Types.{plain_type};
ghost use Rattle.c_tree.specs.Trees.{node, plain_tree, plain_trees};
ghost use Rattle.c_tree.specs.Grammar.{are_words, is_lone_void};
ghost use Rattle.core_meaning.specs.Declarations as spec;
ghost use Rattle.plain_scope.specs.Blocks.{without_block};
ghost use Rattle.plain_scope.specs.PlainScope.{plain_scope};
ghost use Rattle.plain_scope.specs.Judgements.{Answers, Judges};
ghost use Rattle.plain_parameters.specs.PlainParameters.{plain_name, plain_parameter};
ghost use Rattle.plain_parameters.specs.Parameters.{nameless, named_type, named, words_then, are_void, is_void_parameter, is_void_node};

use c_text::Token;
use c_tree::{Kind, Terminal, Tree};
use c_types::CType;
use core_meaning::TypeKind;
use plain_declarators::{
    base_of, behind_word, count_of_size, entry_count, has_no_size, is_absence, is_left_out,
    is_nothing, name_in, node_parts, starred, two_parts,
};
use plain_expressions::is_small;
use plain_scope::{ElabError, Scope, Used, first_token, is_void, is_word, unless};
use std::alloc::Global;

/// A parameter, perhaps with its name.
#[derive(Drop)]
pub struct Parameter<'t> {
    pub name: Option<&'t Token>,
    pub ty: CType,
}

// ---- types of parameters

/// The size of a parameter's array, which is constant where it is written.
#[tactic(auto, using(plain_scope::specs::JudgementLaws::gives_nothing_used))]
fn size_of_parameter(
    alloc: Global,
    scope: &Scope,
    used: &mut Used,
    name: &Token,
    size: Option<&Tree>,
) -> Result<u32, ElabError>
    ensures { Judges (spec.size_of_parameter (plain_scope scope.now) (plain_token name.now) (option_map (λ t. plain_tree t.now) size.entry)) (λ n. n) used.old used.new result }
{
    if has_no_size(size) {
        Ok(0)
    } else {
        let n = count_of_size(alloc, scope, used, name, size)?;
        Ok(n)
    }
}

/// A parameter's array is a pointer.
#[tactic(auto, using(c_types::specs::TypeLaws::type_kinds, plain_declarators::specs::Sequences::passed_gives, plain_declarators::specs::Sequences::passed_refused, plain_declarators::specs::Sequences::failed_refused, plain_declarators::specs::Sequences::gives_as, plain_scope::specs::JudgementLaws::refused_first))]
fn array_parameter(
    alloc: Global,
    scope: &Scope,
    used: &mut Used,
    base: &CType,
    parts: &[Tree],
    name: &Token,
) -> Result<CType, ElabError>
    ensures { Judges (spec.parameter_type (plain_scope scope.now) (plain_type base.now) Kind.ArrayDeclarator (plain_trees parts.now) (plain_token name.now)) plain_type used.old used.new result }
{
    let ty = starred(alloc, parts, base)?;
    unless(scope.is_complete(&ty), TypeKind::Incomplete, name)?;
    size_of_parameter(
        alloc,
        scope,
        used,
        name,
        behind_word(parts, Terminal::OpenBracket),
    )?;
    Ok(CType::Pointer(Box::new(alloc, ty)?))
}

/// The type of a parameter by its declarator.
#[tactic(auto, using(plain_scope::specs::JudgementLaws::gives_nothing_used))]
fn parameter_type(
    alloc: Global,
    scope: &Scope,
    used: &mut Used,
    base: &CType,
    kind: Kind,
    parts: &[Tree],
    name: &Token,
) -> Result<CType, ElabError>
    ensures { Judges (spec.parameter_type (plain_scope scope.now) (plain_type base.now) kind (plain_trees parts.now) (plain_token name.now)) plain_type used.old used.new result }
{
    match kind {
        Kind::ArrayDeclarator => {
            let ty = array_parameter(alloc, scope, used, base, parts, name)?;
            Ok(ty)
        }
        Kind::Declarator => {
            let ty = starred(alloc, parts, base)?;
            Ok(ty)
        }
        _ => Err(ElabError::Memory),
    }
}

/// An incomplete struct may be a parameter of a declaration, not of a definition.
fn may_be_parameter(scope: &Scope, defining: bool, ty: &CType) -> bool
    ensures { result ≡ spec.may_be_parameter defining (plain_scope scope.now) (plain_type ty.now) }
{
    !is_void(ty) && (!defining || scope.is_complete(ty))
}

/// A parameter's type fits and is small enough.
#[tactic(auto, using(plain_declarators::specs::Sequences::both_passed, plain_declarators::specs::Sequences::failed_refused, plain_declarators::specs::Sequences::passed_refused, plain_declarators::specs::Sequences::test_refused))]
fn judge_parameter(scope: &Scope, defining: bool, ty: &CType, at: &Token) -> Result<(), ElabError>
    ensures { Answers (spec.judged_parameter defining (plain_scope scope.now) (plain_type ty.now) (plain_token at.now)) (λ u. tt) result }
{
    unless(
        may_be_parameter(scope, defining, ty),
        TypeKind::Incomplete,
        at,
    )?;
    unless(is_small(scope, ty), TypeKind::BadConstant, at)?;
    Ok(())
}

// ---- their names

fn is_named(p: &Parameter, text: &[u8]) -> bool
    ensures { result ≡ spec.is_name_of text.now (plain_parameter p.now).name }
{
    match p.name {
        Some(name) => name.text.as_slice() == text,
        None => false,
    }
}

fn has_parameter(before: &[Parameter], text: &[u8]) -> bool
    ensures { result ≡ list_any (λ p. spec.is_name_of text.now p.name) (map plain_parameter before.now) }
{
    for p in before {
        if is_named(p, text) {
            return true;
        }
    }
    false
}

fn is_new(before: &[Parameter], name: Option<&Token>) -> bool
    ensures { result ≡ spec.is_new_parameter (map plain_parameter before.now) (plain_name name.entry) }
{
    match name {
        Some(name) => !has_parameter(before, name.text.as_slice()),
        None => true,
    }
}

/// The parameter's name, or its first token.
fn token_of<'t>(name: Option<&'t Token>, first: &'t Token) -> &'t Token
    ensures { plain_token result.now ≡ spec.token_of (plain_name name.entry) (plain_token first.now) }
{
    match name {
        Some(name) => name,
        None => first,
    }
}

// ---- parameters

#[tactic(auto, using(plain_declarators::specs::Sequences::next_of, plain_scope::specs::JudgementLaws::refused_first))]
fn nameless<'t>(
    scope: &Scope,
    defining: bool,
    ty: CType,
    first: &Token,
) -> Result<Parameter<'t>, ElabError>
    ensures { Answers (nameless defining (plain_scope scope.now) (plain_type ty) (plain_token first.now)) plain_parameter result }
{
    judge_parameter(scope, defining, &ty, first)?;
    Ok(Parameter { name: None, ty })
}

/// The type of a parameter that is declared.
#[tactic(auto, using(plain_declarators::specs::Sequences::gives_as, plain_declarators::specs::Sequences::refused_behind, plain_declarators::specs::Sequences::next_of, plain_scope::specs::JudgementLaws::refused_first))]
fn declared_type(
    alloc: Global,
    scope: &Scope,
    used: &mut Used,
    defining: bool,
    base: &CType,
    kind: Kind,
    parts: &[Tree],
    at: &Token,
) -> Result<CType, ElabError>
    ensures { Judges (named_type defining (plain_scope scope.now) (plain_type base.now) kind (plain_trees parts.now) (plain_token at.now)) plain_type used.old used.new result }
{
    let ty = parameter_type(alloc, scope, used, base, kind, parts, at)?;
    judge_parameter(scope, defining, &ty, at)?;
    Ok(ty)
}

/// A parameter with a declarator.
#[tactic(auto, using(plain_declarators::specs::Sequences::passed_gives, plain_declarators::specs::Sequences::passed_refused, plain_declarators::specs::Sequences::failed_refused, crate::specs::Parameters::name_bound, crate::specs::Parameters::name_refused, plain_declarators::specs::Sequences::gives_as, plain_scope::specs::JudgementLaws::refused_first))]
fn named<'t>(
    alloc: Global,
    scope: &Scope,
    used: &mut Used,
    defining: bool,
    before: &[Parameter],
    base: &CType,
    first: &Token,
    kind: Kind,
    parts: &'t [Tree],
) -> Result<Parameter<'t>, ElabError>
    ensures { Judges (named defining (plain_scope scope.now) (map plain_parameter before.now) (plain_type base.now) (plain_token first.now) kind (plain_trees parts.now)) plain_parameter used.old used.new result }
{
    let name = name_in(parts);
    let at = token_of(name, first);
    unless(is_new(before, name), TypeKind::Redeclared, at)?;
    let ty = declared_type(alloc, scope, used, defining, base, kind, parts, at)?;
    Ok(Parameter { name, ty })
}

#[tactic(auto, using(crate::specs::Parameters::by_declarator))]
fn by_kind<'t>(
    alloc: Global,
    scope: &Scope,
    used: &mut Used,
    defining: bool,
    before: &[Parameter],
    base: CType,
    first: &Token,
    kind: Kind,
    parts: &'t [Tree],
) -> Result<Parameter<'t>, ElabError>
    ensures { Judges (spec.declared_parameter defining (plain_scope scope.now) (map plain_parameter before.now) (plain_type base) (plain_token first.now) (node kind (plain_trees parts.now))) plain_parameter used.old used.new result }
{
    if is_absence(kind) {
        let p = nameless(scope, defining, base, first)?;
        Ok(p)
    } else {
        let p = named(
            alloc, scope, used, defining, before, &base, first, kind, parts,
        )?;
        Ok(p)
    }
}

#[tactic(auto, using(c_tree::specs::TreeLaws::tree_kinds))]
fn declared<'t>(
    alloc: Global,
    scope: &Scope,
    used: &mut Used,
    defining: bool,
    before: &[Parameter],
    base: CType,
    first: &Token,
    declarator: &'t Tree,
) -> Result<Parameter<'t>, ElabError>
    ensures { Judges (spec.declared_parameter defining (plain_scope scope.now) (map plain_parameter before.now) (plain_type base) (plain_token first.now) (plain_tree declarator.now)) plain_parameter used.old used.new result }
{
    match declarator {
        Tree::Leaf(_) => Err(ElabError::Memory),
        Tree::Node(kind, parts) => {
            let p = by_kind(
                alloc, scope, used, defining, before, base, first, *kind, parts,
            )?;
            Ok(p)
        }
    }
}

/// A parameter by its words and its declarator.
#[tactic(auto, using(plain_declarators::specs::Bound::base_gives, plain_declarators::specs::Bound::base_refused, plain_scope::specs::JudgementLaws::refused_first))]
fn by_words<'t>(
    alloc: Global,
    scope: &Scope,
    used: &mut Used,
    defining: bool,
    before: &[Parameter],
    words: &[Tree],
    declarator: &'t Tree,
    first: &Token,
) -> Result<Parameter<'t>, ElabError>
    ensures { Judges (words_then defining (plain_scope scope.now) (map plain_parameter before.now) (plain_trees words.now) (plain_tree declarator.now) (plain_token first.now)) plain_parameter used.old used.new result }
{
    let base = base_of(scope, words)?;
    let p = declared(
        alloc, scope, used, defining, before, base, first, declarator,
    )?;
    Ok(p)
}

/// A parameter of a list.
fn one_parameter<'t>(
    alloc: Global,
    scope: &Scope,
    used: &mut Used,
    defining: bool,
    before: &[Parameter],
    tree: &'t Tree,
    behind: &Token,
) -> Result<Parameter<'t>, ElabError>
    ensures { Judges (spec.one_parameter defining (plain_scope scope.now) (map plain_parameter before.now) (plain_tree tree.now) (plain_token behind.now)) plain_parameter used.old used.new result }
{
    let parts = node_parts(tree)?;
    let (words, declarator) = two_parts(parts)?;
    let naming = node_parts(words)?;
    let first = first_token(words, behind);
    let p = by_words(
        alloc, scope, used, defining, before, naming, declarator, first,
    )?;
    Ok(p)
}

/// A parameter is visible behind its declarator, by its slot.
#[tactic(auto, using(plain_declarators::specs::Bound::outside_local))]
pub fn enter_parameter(
    alloc: Global,
    scope: &mut Scope,
    slot: usize,
    p: &Parameter,
) -> Result<(), ElabError>
    ensures placed { MatchResult result (λ u. plain_scope scope.new ≡ spec.with_parameter (plain_scope scope.old) slot (plain_parameter p.now).name (plain_parameter p.now).ty) (λ error. error ≡ ElabError.Memory) }
    ensures outside { OnOk result (without_block (plain_scope scope.new) ≡ without_block (plain_scope scope.old)) }
{
    let Ok(slot) = u32::try_from(slot) else {
        return Err(ElabError::Memory);
    };
    match p.name {
        Some(name) => {
            scope.declare_local(alloc, name.text.as_slice(), slot, &p.ty)?;
            Ok(())
        }
        None => Ok(()),
    }
}

/// The parameters of a list, one after the other; each is visible behind it.
#[tactic(auto, using(plain_scope::specs::JudgementLaws::refused_first))]
fn parameters_from<'t>(
    alloc: Global,
    scope: &mut Scope,
    used: &mut Used,
    defining: bool,
    list: &'t [Tree],
    behind: &Token,
) -> Result<Vec<Parameter<'t>>, ElabError>
    ensures judged { Judges (spec.parameters_from defining (plain_scope scope.old) [] (plain_trees list.now) (plain_token behind.now)) (λ all. map plain_parameter all.items) used.old used.new result }
    ensures outside { OnOk result (without_block (plain_scope scope.new) ≡ without_block (plain_scope scope.old)) }
{
    let mut all = Vec::new(alloc);
    for number in 0..entry_count(list) {
        let before = all.as_slice();
        let tree = &list[2 * number];
        let p = one_parameter(alloc, scope, used, defining, before, tree, behind)?;
        enter_parameter(alloc, scope, number, &p)?;
        all.push(p)?;
    }
    Ok(all)
}

// ---- lists of parameters

fn is_void_word(words: &[Tree]) -> bool
    ensures { result ≡ are_words (Terminal.Void ∷ []) (plain_trees words.now) }
{
    let Some((first, rest)) = words.split_first() else {
        return false;
    };
    is_word(first, Terminal::Void) && is_nothing(rest)
}

#[tactic(auto, using(c_tree::specs::TreeLaws::tree_kinds))]
fn are_void(words: &Tree) -> bool
    ensures { result ≡ are_void (plain_tree words.now) }
{
    match words {
        Tree::Leaf(_) => false,
        Tree::Node(_, words) => is_void_word(words),
    }
}

fn is_void_parameter(parts: &[Tree]) -> bool
    ensures { result ≡ is_void_parameter (plain_trees parts.now) }
{
    let Some((words, rest)) = parts.split_first() else {
        return false;
    };
    let Some((declarator, others)) = rest.split_first() else {
        return false;
    };
    is_nothing(others) && are_void(words) && is_left_out(declarator)
}

#[tactic(auto, using(c_tree::specs::TreeLaws::tree_kinds))]
fn is_void_node(tree: &Tree) -> bool
    ensures { result ≡ is_void_node (plain_tree tree.now) }
{
    match tree {
        Tree::Leaf(_) => false,
        Tree::Node(_, parts) => is_void_parameter(parts),
    }
}

/// Whether the parameters are the lone `void`.
#[tactic(auto, using(crate::specs::Parameters::lone_void))]
fn is_lone_void(list: &[Tree]) -> bool
    ensures { result ≡ is_lone_void (plain_trees list.now) }
{
    let Some((tree, rest)) = list.split_first() else {
        return false;
    };
    is_nothing(rest) && is_void_node(tree)
}

/// The lone `void` stands for no parameter.
#[tactic(auto, using(plain_scope::specs::JudgementLaws::gives_nothing_used))]
fn listed<'t>(
    alloc: Global,
    scope: &mut Scope,
    used: &mut Used,
    defining: bool,
    list: &'t [Tree],
    behind: &Token,
) -> Result<Vec<Parameter<'t>>, ElabError>
    ensures judged { Judges (spec.parameters_in defining (plain_scope scope.old) (node Kind.Parameters (plain_trees list.now)) (plain_token behind.now)) (λ all. map plain_parameter all.items) used.old used.new result }
    ensures same { OnOk result (plain_scope scope.new ≡ plain_scope scope.old) }
{
    if is_lone_void(list) {
        Ok(Vec::new(alloc))
    } else {
        scope.begin_block(alloc)?;
        let all = parameters_from(alloc, scope, used, defining, list, behind)?;
        scope.end_block();
        Ok(all)
    }
}

#[tactic(auto, using(c_tree::specs::TreeLaws::tree_kinds, plain_scope::specs::JudgementLaws::gives_nothing_used))]
fn parameters_in<'t>(
    alloc: Global,
    scope: &mut Scope,
    used: &mut Used,
    defining: bool,
    list: &'t Tree,
    behind: &Token,
) -> Result<Vec<Parameter<'t>>, ElabError>
    ensures judged { Judges (spec.parameters_in defining (plain_scope scope.old) (plain_tree list.now) (plain_token behind.now)) (λ all. map plain_parameter all.items) used.old used.new result }
    ensures same { OnOk result (plain_scope scope.new ≡ plain_scope scope.old) }
{
    match list {
        Tree::Leaf(_) => Ok(Vec::new(alloc)),
        Tree::Node(kind, parts) => match kind {
            Kind::Parameters => {
                let all = listed(alloc, scope, used, defining, parts, behind)?;
                Ok(all)
            }
            _ => Ok(Vec::new(alloc)),
        },
    }
}

/// The parameters of a function's declarator, of a definition or another; behind them no token of theirs is left.
pub fn declared_parameters<'t>(
    alloc: Global,
    scope: &mut Scope,
    used: &mut Used,
    defining: bool,
    parts: &'t [Tree],
    behind: &Token,
) -> Result<Vec<Parameter<'t>>, ElabError>
    ensures judged { Judges (spec.parameters_of defining (plain_scope scope.old) (spec.behind_word Terminal.OpenParenthesis (plain_trees parts.now)) (plain_token behind.now)) (λ all. map plain_parameter all.items) used.old used.new result }
    ensures same { OnOk result (plain_scope scope.new ≡ plain_scope scope.old) }
{
    match behind_word(parts, Terminal::OpenParenthesis) {
        Some(list) => {
            let all = parameters_in(alloc, scope, used, defining, list, behind)?;
            Ok(all)
        }
        None => Err(ElabError::Memory),
    }
}
