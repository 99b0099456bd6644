//! The grammar: what a symbol does, by the place, the innermost open frame and the number of open blocks.
ghost use Rattle.std.specs.Prelude.{◌≡◌, Some};
ghost use Rattle.quick_parser.specs.Spots.{outside, inside, brace_move, endif_move, else_move, entry_move, declarator_move, initializer_move, void_move, operand_move, mark_move, declared_move, operator_move, end_mark, end_move, next_move};
ghost use Rattle.quick_form.specs.Symbols.{While};
ghost use Rattle.quick_lexer.specs.View.{symbol_view};

use crate::spots::{Frame, Move, Place, SumEnd};
use quick_lexer::Symbol;

/// The most blocks that may be open at once.
const MOST_BLOCKS: usize = 64;

/// Items stand outside blocks.
fn outside(blocks: usize, next: Move) -> Option<Move>
    ensures { result ≡ outside blocks (Some next) }
{
    if blocks == 0 { Some(next) } else { None }
}

/// Statements stand inside blocks.
fn inside(blocks: usize, next: Move) -> Option<Move>
    ensures { result ≡ inside blocks (Some next) }
{
    if blocks == 0 { None } else { Some(next) }
}

/// A loop opens a further block.
fn loop_move(blocks: usize) -> Option<Move>
    ensures { result ≡ entry_move None blocks While }
{
    if blocks < MOST_BLOCKS {
        inside(blocks, Move::To(Place::Opening(SumEnd::Condition)))
    } else {
        None
    }
}

fn brace_move(innermost: Option<Frame>) -> Option<Move>
    ensures { result ≡ brace_move innermost }
{
    match innermost {
        Some(Frame::Block) => Some(Move::Leave),
        _ => None,
    }
}

fn endif_move(innermost: Option<Frame>) -> Option<Move>
    ensures { result ≡ endif_move innermost }
{
    match innermost {
        Some(Frame::Group | Frame::Alternative) => Some(Move::Leave),
        _ => None,
    }
}

fn else_move(innermost: Option<Frame>) -> Option<Move>
    ensures { result ≡ else_move innermost }
{
    match innermost {
        Some(Frame::Group) => Some(Move::Turn),
        _ => None,
    }
}

fn entry_move(innermost: Option<Frame>, blocks: usize, symbol: &Symbol) -> Option<Move>
    ensures { result ≡ entry_move innermost blocks (symbol_view symbol.now) }
{
    match symbol {
        Symbol::Int => outside(blocks, Move::To(Place::Declarator)),
        Symbol::Name(_) => inside(blocks, Move::To(Place::Assignment)),
        Symbol::Putchar => inside(blocks, Move::To(Place::Opening(SumEnd::Output))),
        Symbol::Return => inside(blocks, Move::To(Place::Operand(SumEnd::Statement))),
        Symbol::While => loop_move(blocks),
        Symbol::Mark(b'}') => brace_move(innermost),
        Symbol::Ifdef(_) => Some(Move::Enter(Frame::Group)),
        Symbol::Else => else_move(innermost),
        Symbol::Endif => endif_move(innermost),
        _ => None,
    }
}

fn declarator_move(symbol: &Symbol) -> Option<Move>
    ensures { result ≡ declarator_move (symbol_view symbol.now) }
{
    match symbol {
        Symbol::Name(_) => Some(Move::To(Place::Declared)),
        Symbol::Main => Some(Move::To(Place::MainOpening)),
        _ => None,
    }
}

fn declared_move(symbol: &Symbol) -> Option<Move>
    ensures { result ≡ declared_move (symbol_view symbol.now) }
{
    match symbol {
        Symbol::Mark(b'=') => Some(Move::To(Place::Initializer)),
        Symbol::Mark(b';') => Some(Move::To(Place::Entry)),
        _ => None,
    }
}

fn initializer_move(symbol: &Symbol) -> Option<Move>
    ensures { result ≡ initializer_move (symbol_view symbol.now) }
{
    match symbol {
        Symbol::Number(_) => Some(Move::To(Place::Semicolon)),
        _ => None,
    }
}

fn void_move(symbol: &Symbol) -> Option<Move>
    ensures { result ≡ void_move (symbol_view symbol.now) }
{
    match symbol {
        Symbol::Void => Some(Move::To(Place::MainClosing)),
        _ => None,
    }
}

/// Where one mark is wanted.
fn mark_move(mark: u8, next: Move, symbol: &Symbol) -> Option<Move>
    ensures { result ≡ mark_move mark next (symbol_view symbol.now) }
{
    match symbol {
        Symbol::Mark(byte) if *byte == mark => Some(next),
        _ => None,
    }
}

fn operand_move(end: SumEnd, symbol: &Symbol) -> Option<Move>
    ensures { result ≡ operand_move end (symbol_view symbol.now) }
{
    match symbol {
        Symbol::Name(_) | Symbol::Number(_) => Some(Move::To(Place::Operator(end))),
        _ => None,
    }
}

/// The mark that ends a sum.
fn end_mark(end: SumEnd) -> u8
    ensures { result ≡ end_mark end }
{
    match end {
        SumEnd::Statement => b';',
        SumEnd::Output | SumEnd::Condition => b')',
    }
}

/// What comes behind that mark.
fn end_move(end: SumEnd) -> Move
    ensures { result ≡ end_move end }
{
    match end {
        SumEnd::Statement => Move::To(Place::Entry),
        SumEnd::Output => Move::To(Place::Semicolon),
        SumEnd::Condition => Move::To(Place::Body),
    }
}

fn operator_move(end: SumEnd, symbol: &Symbol) -> Option<Move>
    ensures { result ≡ operator_move end (symbol_view symbol.now) }
{
    match symbol {
        Symbol::Mark(b'+' | b'-') => Some(Move::To(Place::Operand(end))),
        _ => mark_move(end_mark(end), end_move(end), symbol),
    }
}

/// What a symbol does, if the grammar lets it stand there.
pub fn next_move(
    place: Place,
    innermost: Option<Frame>,
    blocks: usize,
    symbol: &Symbol,
) -> Option<Move>
    ensures { result ≡ next_move place innermost blocks (symbol_view symbol.now) }
{
    match place {
        Place::Entry => entry_move(innermost, blocks, symbol),
        Place::Declarator => declarator_move(symbol),
        Place::Declared => declared_move(symbol),
        Place::Initializer => initializer_move(symbol),
        Place::Semicolon => mark_move(b';', Move::To(Place::Entry), symbol),
        Place::MainOpening => mark_move(b'(', Move::To(Place::MainVoid), symbol),
        Place::MainVoid => void_move(symbol),
        Place::MainClosing => mark_move(b')', Move::To(Place::Body), symbol),
        Place::Body => mark_move(b'{', Move::Enter(Frame::Block), symbol),
        Place::Assignment => mark_move(b'=', Move::To(Place::Operand(SumEnd::Statement)), symbol),
        Place::Opening(end) => mark_move(b'(', Move::To(Place::Operand(end)), symbol),
        Place::Operand(end) => operand_move(end, symbol),
        Place::Operator(end) => operator_move(end, symbol),
    }
}
