//! Whether `run` comes to anything: a law on its course, the contract of a function without a body.
#![tactic(auto)]

ghost use Rattle.run_outcomes.specs.Laws.{RunConcludes};

use file_outcomes::no_file_is_left_out;
use product_outcomes::no_product_is_left_out;

/// A run of a product comes to something, whatever the project's files and the input hold.
pub fn run_concludes()
    ensures { RunConcludes }
{
    no_file_is_left_out();
    no_product_is_left_out();
}
