ghost use Rattle.std.specs.Prelude.{Ok};
ghost use Rattle.command_promises.specs.Endings.{Told};
ghost use Rattle.command_promises.specs.Giving.{Finished};

use crate::give::give;
use crate::said::{Said, Stop};
use crate::write::write_all;
use project_store::{Sink, Store};

/// The status where the sink failed.
const SINK_FAULT: u8 = 6;

/// Gives the report, and answers the status.
fn told<K: Sink>(out: &mut K, status: u8, report: &[u8]) -> u8
    ensures { Told status report.now (K.state out.old) (K.state out.new) result }
{
    match give(out, report) {
        Ok(()) => status,
        Err(_) => SINK_FAULT,
    }
}

/// Writes the files and gives the report of what a command says.
fn carried_out<S: Store, K: Sink>(said: Said, store: &mut S, out: &mut K) -> u8
    ensures { Finished (Ok said) (S.state store.old) (S.state store.new) (K.state out.old) (K.state out.new) result }
{
    match write_all(store, &said.written.list) {
        Ok(()) => told(out, said.status, &said.report),
        Err(_) => told(out, 4, b"write fault\n"),
    }
}

/// Carries out what a command's call came to, and answers the exit status.
pub fn finish<S: Store, K: Sink>(came: Result<Said, Stop>, store: &mut S, out: &mut K) -> u8
    ensures { Finished came (S.state store.old) (S.state store.new) (K.state out.old) (K.state out.new) result }
{
    match came {
        Ok(said) => carried_out(said, store, out),
        Err(Stop::ReadFault) => told(out, 3, b"read fault\n"),
        Err(Stop::WantOfMemory) => told(out, 7, b"want of memory\n"),
    }
}
