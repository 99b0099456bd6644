//! The unit of a quick file, which is the file behind the line `int putchar(int);`: which tokens its preprocessing gives
//! (ISO/IEC 9899:2011, 6.10). Here are the definitions (in `specs/`) and the law, the contract of a function without a body.
#![tactic(auto)]

ghost use Rattle.quick_units.specs.Units.{UnitsGiveWhatIsPresent};

use plain_pp::projects_have_syntax;
use quick_lines::texts_are_spelled;

/// Where the unit of a quick file gives tokens, they are those of the items that are present, with `1` for each name of a feature
/// that is on.
pub fn units_give_what_is_present()
    ensures { UnitsGiveWhatIsPresent }
{
    texts_are_spelled();
    projects_have_syntax();
}
