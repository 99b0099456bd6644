//! What becomes of units: laws of preprocessing in one configuration (ISO/IEC 9899:2011, 6.10), the contracts of functions without a body.
#![tactic(auto)]

ghost use Rattle.unit_outcomes.specs.Laws.{ReadsAreOne, TokensAreSpelt, UnitsHaveOutcomes};

use c_lexer::lines_are_one;
use plain_pp::projects_have_syntax;

/// A unit gives tokens or is refused.
pub fn units_have_outcomes()
    ensures { UnitsHaveOutcomes }
{
    lines_are_one();
    projects_have_syntax();
}

/// However a project's files are read, a unit reads the same outside every skipped group.
pub fn reads_are_one()
    ensures { ReadsAreOne }
{
    lines_are_one();
}

/// What preprocessing gives is spelt as its kinds say.
pub fn tokens_are_spelt()
    ensures { TokensAreSpelt }
{
    projects_have_syntax();
}
