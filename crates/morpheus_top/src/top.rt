ghost use Rattle.std.specs.Prelude.{◌≡◌, ◌≢◌, ℕ, List, [], ◌∷◌, map, Contains, IsErrOf};
ghost use Rattle.std.specs.String.{string_bytes};
ghost use Rattle.project_store.specs.Faults.{Rose, HasCause};
ghost use Rattle.project_store.specs.States.{Kept, IsReadAlone};
ghost use Rattle.command_promises.specs.Sayings.{CameTo};
ghost use Rattle.command_promises.specs.Commands.{Asked, CourseFor, CourseOf};
ghost use Rattle.command_promises.specs.Endings.{Answers};
ghost use Rattle.command_promises.specs.Promises.{Promises};
ghost use Rattle.command_outcomes.specs.Concluding.{ComesToSomething};
ghost use Rattle.command_quick.specs.Words.{Renaming};
ghost use Rattle.command_quick.specs.Quick as quick;
ghost use Rattle.command_quick.specs.Behaviour.{BehaviourIsKept};
ghost use Rattle.command_admit.specs.Admit as admit;
ghost use Rattle.command_tokens.specs.Words.{UnitQuery};
ghost use Rattle.command_tokens.specs.Tokens as tokens;
ghost use Rattle.command_run.specs.Words.{RunQuery};
ghost use Rattle.command_run.specs.Run as run;
ghost use Rattle.command_check.specs.Check as check;
ghost use Rattle.rename_words.specs.Words.{RenameQuery};
ghost use Rattle.command_rename.specs.Rename as rename;
ghost use Rattle.command_rename.specs.Products.{ProductsAreKept};
ghost use Rattle.morpheus_top.specs.Commands.{commands, program, IsUsage};

use crate::commands::{Which, named};
use crate::laws::calls_conclude;
use command_admit::{admit, admit_is_decided};
use command_check::{check, check_is_decided};
use command_promises::{Said, Stop, finish, usage};
use command_quick::{quick, quick_is_decided};
use command_rename::{rename, rename_is_decided, renamings_that_are_written_keep_products};
use command_run::{run, run_is_decided};
use command_tokens::{tokens, tokens_are_decided};
use project_store::{Sink, Store};
use quick_form::renaming_keeps_behaviour;
use std::alloc::Global;

/// Carries out a command with its further words, but for what is written.
fn carried_out<S: Store>(
    alloc: Global,
    which: Which,
    further: &[String],
    store: &mut S,
) -> Result<Said, Stop>
    ensures came { CameTo (CourseFor (commands which) (map string_bytes further.now)) (S.state store.old) result }
    ensures cause { HasCause (S.state store.old).exact (S.state store.old).read_faults (S.state store.new).read_faults (IsErrOf result Stop.ReadFault) }
    ensures kept { IsReadAlone (S.state store.old) (S.state store.new) }
{
    match which {
        Which::Quick => quick(alloc, further, store),
        Which::Admit => admit(alloc, further, store),
        Which::Tokens => tokens(alloc, further, store),
        Which::Run => run(alloc, further, store),
        Which::Check => check(alloc, further, store),
        Which::Rename => rename(alloc, further, store),
    }
}

/// Carries out the command with this first word.
fn with_word<S: Store>(
    alloc: Global,
    word: &str,
    further: &[String],
    store: &mut S,
) -> Result<Said, Stop>
    ensures came { CameTo (CourseOf commands (word.now ∷ map string_bytes further.now)) (S.state store.old) result }
    ensures cause { HasCause (S.state store.old).exact (S.state store.old).read_faults (S.state store.new).read_faults (IsErrOf result Stop.ReadFault) }
    ensures kept { IsReadAlone (S.state store.old) (S.state store.new) }
{
    match named(word) {
        Some(which) => carried_out(alloc, which, further, store),
        None => {
            let said = usage(alloc)?;
            Ok(said)
        }
    }
}

/// Carries out the command that the words ask for, but for what is written.
fn answer<S: Store>(alloc: Global, words: &[String], store: &mut S) -> Result<Said, Stop>
    ensures came { CameTo (CourseOf commands (map string_bytes words.now)) (S.state store.old) result }
    ensures cause { HasCause (S.state store.old).exact (S.state store.old).read_faults (S.state store.new).read_faults (IsErrOf result Stop.ReadFault) }
    ensures kept { IsReadAlone (S.state store.old) (S.state store.new) }
{
    match words.split_first() {
        Some((word, further)) => with_word(alloc, word.as_str(), further, store),
        None => {
            let said = usage(alloc)?;
            Ok(said)
        }
    }
}

/// Carries out a command, writes, reports, and answers the status.
fn serve<S: Store, K: Sink>(alloc: Global, words: &[String], store: &mut S, out: &mut K) -> u8
    ensures { Answers (CourseOf commands (map string_bytes words.now)) (S.state store.old) (S.state store.new) (K.state out.old) (K.state out.new) result }
{
    let came = answer(alloc, words, store);
    finish(came, store, out)
}

/// Carries out a command over a store, gives its report to a sink, and answers the exit status.
///
/// `words` are those after the program's name. The statuses are 0 where the command succeeded, 1 `broken STAGE at NAMES` or
/// `refused PRECONDITION at NAMES`, 2 `usage`, 3 `read fault`, 4 `write fault`, 5 `bad project: FAULT`, 6 where the sink failed,
/// 7 `want of memory`, 8 `nothing at the place`, 9 `not admitted`, `not present` or `not accepted STAGE`, 10 `undefined` and
/// 11 `running` behind what a run put out, and 12 `not quick at OFFSET`. Only want of memory may come at any time before the
/// first write. Files are written in their order, the project file last; where a write fails, those before it stand whole.
pub fn morpheus<S: Store, K: Sink>(
    alloc: Global,
    words: &[String],
    store: &mut S,
    out: &mut K,
) -> u8
    // What holds of every call.
    ensures all { Promises program (map string_bytes words.now) (S.state store.old) (S.state store.new) (K.state out.old) (K.state out.new) result }
    ensures concludes { ComesToSomething (CourseOf commands (map string_bytes words.now)) (S.state store.old) }
    ensures usage { IsUsage (map string_bytes words.now) → Contains (2 ∷ 6 ∷ 7 ∷ []) result }
    ensures read_fault { result ≡ 3 → Rose (S.state store.old).read_faults (S.state store.new).read_faults }
    ensures write_fault { result ≡ 4 → Rose (S.state store.old).write_faults (S.state store.new).write_faults }
    ensures sink_fault { result ≡ 6 → Rose (K.state out.old).faults (K.state out.new).faults }
    ensures untouched { result ≢ 0 → result ≢ 4 → result ≢ 6 → Kept (S.state store.old) (S.state store.new) }

    // What holds besides where the words ask this of a command.
    ensures quick { (r : Renaming) → Asked quick.quick (map string_bytes words.now) r
        → Promises quick.quick r (S.state store.old) (S.state store.new) (K.state out.old) (K.state out.new) result }
    ensures admit { (project : List ℕ) → Asked admit.admit (map string_bytes words.now) project
        → Promises admit.admit project (S.state store.old) (S.state store.new) (K.state out.old) (K.state out.new) result }
    ensures tokens { (q : UnitQuery) → Asked tokens.tokens (map string_bytes words.now) q
        → Promises tokens.tokens q (S.state store.old) (S.state store.new) (K.state out.old) (K.state out.new) result }
    ensures run { (q : RunQuery) → Asked run.run (map string_bytes words.now) q
        → Promises run.run q (S.state store.old) (S.state store.new) (K.state out.old) (K.state out.new) result }
    ensures check { (project : List ℕ) → Asked check.check (map string_bytes words.now) project
        → Promises check.check project (S.state store.old) (S.state store.new) (K.state out.old) (K.state out.new) result }
    ensures rename { (q : RenameQuery) → Asked rename.rename (map string_bytes words.now) q
        → Promises rename.rename q (S.state store.old) (S.state store.new) (K.state out.old) (K.state out.new) result }

    // Every product of the file that `quick` writes behaves as that of the file that was read.
    ensures behaviour { result ≡ 0 → (S.state store.old).tells → (r : Renaming) → Asked quick.quick (map string_bytes words.now) r
        → BehaviourIsKept r (S.state store.old).file (S.state store.new).file }

    // Every product of the project that `rename` writes is accepted and runs as that of the project that was read.
    ensures products { result ≡ 0 → (S.state store.old).tells → (q : RenameQuery) → Asked rename.rename (map string_bytes words.now) q
        → ProductsAreKept q (S.state store.old).file (S.state store.new).file }
{
    // The laws behind the clauses; they do nothing.
    quick_is_decided();
    admit_is_decided();
    tokens_are_decided();
    run_is_decided();
    check_is_decided();
    rename_is_decided();
    renaming_keeps_behaviour();
    renamings_that_are_written_keep_products();
    calls_conclude();
    serve(alloc, words, store, out)
}
