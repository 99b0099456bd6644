ghost use Rattle.std.specs.Prelude.{◌≡◌, ◌+◌, ◌≤◌, ◌<◌, ◌++◌, length, take, min, IfOk, OnErr};
ghost use Rattle.project_store.specs.Faults.{HasCause};
ghost use Rattle.project_store.specs.States.{SinkState};

/// A piece wasn't taken.
#[derive(Clone, Copy, Debug, PartialEq, Eq)]
pub struct SinkFailed;

/// A place where bytes go, one piece after another.
///
/// A sink may tell what it took, and besides the room that it has left, and then it fails only where
/// it has none. One that tells nothing, as standard output, has its count of faults: no call
/// fails, or takes none of a piece, unless the count rose.
pub trait Sink {
    ghost use Rattle.project_store.specs.Sink.{IsFault};

    /// What the sink tells and counts.
    ghost state: { Self → SinkState };

    /// Takes a front of the piece, and says how many bytes that were.
    fn write(&mut self, bytes: &[u8]) -> Result<usize, SinkFailed>
        ensures count { IfOk result (λ n. n ≤ length bytes.now) }
        ensures ok { IfOk result
            (λ n. (state self.old).tells → (state self.new).taken ≡ (state self.old).taken ++ take n bytes.now) }
        ensures err { OnErr result ((state self.old).tells → (state self.new).taken ≡ (state self.old).taken) }
        ensures told { (state self.old).tells → (state self.new).tells }
        ensures exact { (state self.old).exact → (state self.new).exact }

        // To take none of a piece that isn't empty is a fault too.
        ensures cause { HasCause (state self.old).exact (state self.old).faults (state self.new).faults (IsFault result bytes.now) }

        // A sink that tells its room takes the longest front that fits, and fails only where not
        // even one byte does.
        ensures fits { IfOk result
            (λ n. (state self.old).tells_room → n ≡ min (length bytes.now) (state self.old).room) }
        ensures room { IfOk result
            (λ n. (state self.old).tells_room → (state self.new).room + n ≡ (state self.old).room) }
        ensures full { OnErr result ((state self.old).tells_room → (state self.old).room ≡ 0) }
        ensures full_for_some { OnErr result ((state self.old).tells_room → 0 < length bytes.now) }
        ensures room_told { (state self.old).tells_room → (state self.new).tells_room };

    /// A sink that tells its room tells what it took.
    ghost room_is_told: { (sink : Self) → (state sink).tells_room → (state sink).tells };
}
