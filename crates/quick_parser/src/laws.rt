//! What the machine's states mean, as laws about lists of symbols. Each function is its contract alone.
ghost use Rattle.quick_parser.specs.Laws.{StatesComplete, StatesBegin, RefusalsEnd, CompleteIsWritten, RefusedIsUnwritten, TestsAreKept, OneStepMore, NamesAreAlike, NumbersAreAlike, TestsStandAtEntries, MalformedIsRefused, DeclaredBehindInt};

/// No state is a dead end.
pub fn states_complete()
    ensures { StatesComplete }
{}

/// What is read is the beginning of some file.
pub fn states_begin()
    ensures { StatesBegin }
{}

/// What is refused is the beginning of no file.
pub fn refusals_end()
    ensures { RefusalsEnd }
{}

/// The state tells whether a whole file was read.
pub fn complete_is_written()
    ensures { CompleteIsWritten }
{}

/// What is refused is no file.
pub fn refused_is_unwritten()
    ensures { RefusedIsUnwritten }
{}

/// A state keeps the tested names in the order of their first tests.
pub fn tests_are_kept()
    ensures { TestsAreKept }
{}

/// One symbol more is one step more.
pub fn one_step_more()
    ensures { OneStepMore }
{}

/// Where one name may stand, outside directive lines, each may.
pub fn names_are_alike()
    ensures { NamesAreAlike }
{}

/// Where one number may stand, each may.
pub fn numbers_are_alike()
    ensures { NumbersAreAlike }
{}

/// A name may be tested where an entry may begin, within the limit on tested names.
pub fn tests_stand_at_entries()
    ensures { TestsStandAtEntries }
{}

/// What is no token of the form stands nowhere.
pub fn malformed_is_refused()
    ensures { MalformedIsRefused }
{}

/// The declared names of items are those behind an `int`.
pub fn declared_behind_int()
    ensures { DeclaredBehindInt }
{}
