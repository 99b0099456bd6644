use project_store::{Sink, SinkFailed};

/// Standard output, as the place where the report goes. It tells nothing of what it took.
#[derive(Drop)]
pub(crate) struct StdoutSink<'a, R: Print> {
    out: &'a R,
    faults: u64,
}

impl<'a, R: Print> StdoutSink<'a, R> {
    ghost use Rattle.std.specs.Prelude.{◌≡◌};

    pub(crate) fn new(out: &'a R) -> Self
        ensures faults { result.faults ≡ 0 }
    {
        StdoutSink { out, faults: 0 }
    }
}

impl<'a, R: Print> Sink for StdoutSink<'a, R> {
    ghost use Rattle.morpheus_cli.specs.States.{output_state};

    ghost state = { λ sink. output_state sink.faults };

    /// Takes the whole piece. Standard output holds nothing back, so there is nothing to flush.
    fn write(&mut self, bytes: &[u8]) -> Result<usize, SinkFailed> {
        if self.out.write_all(bytes).is_err() {
            self.faults = self.faults.saturating_add(1);
            return Err(SinkFailed);
        }
        Ok(bytes.len())
    }

    ghost room_is_told = { λ _ told. absurd told };
}

#[cfg(test)]
mod tests {
    use super::*;

    #[test]
    fn standard_output_takes_a_piece(rt: HostRuntime) {
        let mut out = StdoutSink::new(&rt);
        assert_eq!(rt; out.write(b"a piece\n"), Ok(8));
        assert_eq!(rt; out.faults, 0);
    }
}
