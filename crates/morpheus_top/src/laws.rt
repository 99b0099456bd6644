//! A law of all commands, with no code.
ghost use Rattle.morpheus_top.specs.Laws.{CallsConclude};

use command_check::check_concludes;
use command_outcomes::{admit_concludes, quick_concludes, tokens_conclude};
use command_rename::rename_concludes;
use run_outcomes::run_concludes;

/// Whatever the words are and the files hold, a call comes to something to say, or to a file that isn't there.
pub fn calls_conclude()
    ensures { CallsConclude }
{
    quick_concludes();
    admit_concludes();
    tokens_conclude();
    run_concludes();
    check_concludes();
    rename_concludes();
}
