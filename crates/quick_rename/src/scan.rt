//! What a file of the form says of the two names of a renaming.
ghost use Rattle.std.specs.Prelude.{◌≡◌, ◌+◌, ◌-◌, ◌^◌, ◌||◌, ◌&&◌, not, min, [], ◌∷◌, length, is_some, if◌then◌else◌};
ghost use Rattle.quick_form.specs.Places.{name_of};
ghost use Rattle.quick_form.specs.Symbols as spec;
ghost use Rattle.quick_lexer.specs.View.{symbol_view};
ghost use Rattle.quick_rename.specs.Scans as spec_scan;

use crate::visit::Visitor;
use quick_lexer::Symbol;
use quick_parser::Parser;
use std::alloc::AllocError;

fn is_int(symbol: &Symbol) -> bool
    ensures { result ≡ spec_scan.is_int (symbol_view symbol.now) }
{
    matches!(symbol, Symbol::Int)
}

/// Whether a symbol is the name, outside directive lines.
fn is_use(symbol: &Symbol, name: &[u8]) -> bool
    ensures { result ≡ spec.uses name.now (symbol_view symbol.now) }
{
    match symbol {
        Symbol::Name(other) => name == *other,
        _ => false,
    }
}

/// Whether a symbol is the name, in an `#ifdef` too.
fn is_mention(symbol: &Symbol, name: &[u8]) -> bool
    ensures { result ≡ spec.mentions name.now (symbol_view symbol.now) }
{
    match symbol {
        Symbol::Name(other) | Symbol::Ifdef(other) => name == *other,
        _ => false,
    }
}

/// Whether a symbol is a tested name, outside directive lines.
fn is_tested(symbol: &Symbol, parser: &Parser) -> bool
    ensures { result ≡ spec_scan.uses_one_of parser.now.tested_names (symbol_view symbol.now) }
{
    match symbol {
        Symbol::Name(name) => parser.has_tested(name),
        _ => false,
    }
}

/// The offset of a symbol's name, which ends at `end`.
fn name_start(symbol: &Symbol, end: usize) -> usize
    ensures { result ≡ end - length (name_of (symbol_view symbol.now)) }
{
    match symbol {
        Symbol::Name(name) | Symbol::Ifdef(name) => end.saturating_sub(name.len()),
        _ => end,
    }
}

/// The first place, where it may be here.
fn first_of(earlier: Option<usize>, is_here: bool, here: usize) -> Option<usize>
    ensures { result ≡ spec_scan.first_of earlier is_here here }
{
    match earlier {
        Some(place) => Some(place),
        None => { if is_here { Some(here) } else { None } }
    }
}

fn counted(count: usize, is_one_more: bool) -> usize
    ensures { result ≡ (if is_one_more then min (count + 1) (2 ^ 64 - 1) else count) }
{
    if is_one_more {
        count.saturating_add(1)
    } else {
        count
    }
}

/// Whether the name was declared before, or is here behind an `int`.
fn declared(before: bool, follows_int: bool, is_here: bool) -> bool
    ensures { result ≡ (before || (follows_int && is_here)) }
{
    before || (follows_int && is_here)
}

/// What is found on the way over the symbols of a file.
#[derive(Drop)]
pub(crate) struct Scan<'a> {
    old: &'a [u8],
    new: &'a [u8],
    /// The parser that has read the whole file, and so knows the tested names.
    parser: &'a Parser,
    /// Whether the last symbol was `int`.
    follows_int: bool,
    declares_old: bool,
    /// How many tokens are the old name. The count stands still at its type's end.
    tokens: usize,
    /// Where the new name stands first, in an `#ifdef` too.
    first_new: Option<usize>,
    /// Where a tested name stands first outside directive lines.
    first_tested: Option<usize>,
}

impl<'a> Scan<'a> {
    /// A walk that has taken nothing yet.
    pub(crate) fn new(old: &'a [u8], new: &'a [u8], parser: &'a Parser) -> Scan<'a>
        ensures nothing { spec_scan.ScannedPlaces result [] }
        ensures words { spec_scan.scan_words result ≡ old.now ∷ new.now ∷ parser.now.tested_names }
    {
        Scan {
            old,
            new,
            parser,
            follows_int: false,
            declares_old: false,
            tokens: 0,
            first_new: None,
            first_tested: None,
        }
    }

    /// How many tokens are the old name.
    pub(crate) fn tokens(&self) -> usize
        ensures { result ≡ self.now.tokens }
    {
        self.tokens
    }

    /// Why a file of the form with so many bytes isn't taken, if it isn't: the offset of the first new
    /// name, of the first tested name outside directive lines, or the end where the old name isn't
    /// declared.
    pub(crate) fn fault(&self, len: usize) -> Option<usize>
        ensures some { is_some result ≡ (is_some self.now.first_new || is_some self.now.first_tested || not self.now.declares_old) }
        ensures place { result ≡ spec_scan.first_fault self.now.first_new self.now.first_tested self.now.declares_old len }
    {
        if self.first_new.is_some() {
            self.first_new
        } else if self.first_tested.is_some() {
            self.first_tested
        } else if self.declares_old {
            None
        } else {
            Some(len)
        }
    }
}

impl Visitor for Scan<'_> {
    ghost took = { spec_scan.ScannedPlaces };

    ghost refuses = { λ _. ⊥ };

    ghost words = { spec_scan.scan_words };

    fn take(&mut self, symbol: &Symbol, end: usize) -> Result<bool, AllocError> {
        let is_old = is_use(symbol, self.old);
        let is_new = is_mention(symbol, self.new);
        let is_tested = is_tested(symbol, self.parser);
        let start = name_start(symbol, end);
        self.declares_old = declared(self.declares_old, self.follows_int, is_old);
        self.tokens = counted(self.tokens, is_old);
        self.first_new = first_of(self.first_new, is_new, start);
        self.first_tested = first_of(self.first_tested, is_tested, start);
        self.follows_int = is_int(symbol);
        Ok(true)
    }
}
