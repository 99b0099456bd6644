ghost use Rattle.std.specs.Prelude.{OnOk, OnErr};
ghost use Rattle.command_promises.specs.Endings.{Takes, BreaksOff};

use project_store::{Sink, SinkFailed};

/// Gives the sink all the bytes, piece after piece.
pub(crate) fn give<K: Sink>(out: &mut K, bytes: &[u8]) -> Result<(), SinkFailed>
    ensures all { OnOk result (Takes (K.state out.old) (K.state out.new) bytes.now) }
    ensures front { OnErr result (BreaksOff (K.state out.old) (K.state out.new) bytes.now) }
{
    let mut given = 0;
    while given < bytes.len() {
        let n = out.write(&bytes[given..])?;
        if n == 0 {
            return Err(SinkFailed);
        }
        given += n;
    }
    Ok(())
}
