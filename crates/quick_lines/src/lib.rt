//! A quick file as lines of C: where its symbols keep apart, C cuts its text into the same lines and tokens (ISO/IEC 9899:2011, 5.1.1.2,
//! phases 2 and 3, and 6.4). Here are the definitions (in `specs/`) and the law, the contract of a function without a body.
#![tactic(auto)]

ghost use Rattle.quick_lines.specs.Laws.{TextsAreSpelled};

/// The lines that C reads in a text spell the symbols that the quick form reads there.
pub fn texts_are_spelled()
    ensures { TextsAreSpelled }
{}
