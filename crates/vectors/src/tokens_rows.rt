use crate::rows::{failing, holds, owned_words};
use morpheus_top::morpheus;
use project_store::{MemorySink, MemoryStore, SureSink, SureStore};
use std::alloc::{AllocError, Global};
use std::test::Fail;
use text_edits::{Files, SourceFile};

const PROJECT: &str = "features = [\"A\", \"B\"]
[[unit]]
file = \"m.c\"
";

const WHERE_A: &str = "features = [\"A\", \"B\"]
[[unit]]
file = \"m.c\"
when = \"A\"
";

const WITH_B: &str = "features = [\"A\", \"B\"]
constraints = [\"B\"]
[[unit]]
file = \"m.c\"
when = \"A\"
";

const MACROS: &str = "#define x x + 1
#define f(a) a * 2
int v = f(f(x));
";

const OPEN_COMMENT: &str = "int main(void) { return 0; }
/* open
";

/// A command `tokens p.toml m.c NAMES`, and what it answers.
#[derive(Clone, Copy, Debug)]
struct Row {
    project: &'static str,
    unit: &'static str,
    names: &'static str,
    /// The number of the call on the store that fails, or 0.
    failing_store: u32,
    /// The number of the call on the sink that fails, or 0.
    failing_sink: u32,
    status: u8,
    printed: &'static str,
}

const REPLACED: Row = Row {
    project: PROJECT,
    unit: MACROS,
    names: "-",
    failing_store: 0,
    failing_sink: 0,
    status: 0,
    printed: "int\nv\n=\nx\n+\n1\n*\n2\n*\n2\n;\n",
};

const REFUSED: Row = Row {
    unit: OPEN_COMMENT,
    status: 9,
    printed: "not accepted preprocess\n",
    ..REPLACED
};

const ABSENT: Row = Row {
    project: WHERE_A,
    unit: "int x;\n",
    status: 9,
    printed: "not present\n",
    ..REPLACED
};

/// What isn't admitted comes first, whatever else is wrong.
const NOT_ADMITTED: Row = Row {
    project: WITH_B,
    unit: OPEN_COMMENT,
    status: 9,
    printed: "not admitted\n",
    ..REPLACED
};

const FEATURE: Row = Row {
    unit: "A\nB\n",
    names: "B",
    printed: "A\n1\n",
    ..REPLACED
};

const UNKNOWN: Row = Row {
    names: "C",
    status: 2,
    printed: "usage\n",
    ..REPLACED
};

const UNIT_UNREAD: Row = Row {
    failing_store: 2,
    status: 3,
    printed: "read fault\n",
    ..REPLACED
};

const SINK_FAILS: Row = Row {
    failing_sink: 1,
    status: 6,
    printed: "",
    ..REPLACED
};

const ROWS: [Row; 8] = [
    REPLACED,
    REFUSED,
    ABSENT,
    NOT_ADMITTED,
    FEATURE,
    UNKNOWN,
    UNIT_UNREAD,
    SINK_FAILS,
];

fn file(alloc: Global, name: &str, text: &str) -> Result<SourceFile, AllocError> {
    Ok(SourceFile {
        name: String::from_str(alloc, name)?,
        bytes: Vec::from_slice(alloc, text.as_bytes())?,
    })
}

/// The project file and the unit's.
fn files_of(alloc: Global, row: &Row) -> Result<Files, AllocError> {
    let mut list = Vec::new(alloc);
    list.push(file(alloc, "p.toml", row.project)?)?;
    list.push(file(alloc, "m.c", row.unit)?)?;
    Ok(Files { list })
}

/// What a row's command answered, and what of the rest is as wanted.
#[derive(Clone, Copy, Debug, PartialEq, Eq)]
struct Outcome {
    status: u8,
    is_printed: bool,
    is_kept: bool,
}

/// Carries out a row's command.
fn carried_out(alloc: Global, row: &Row) -> Result<Outcome, AllocError> {
    let words = owned_words(alloc, &["tokens", "p.toml", "m.c", row.names])?;
    let files = files_of(alloc, row)?;
    let mut store = MemoryStore::new(alloc, files, failing(alloc, row.failing_store)?);
    let mut out = MemorySink::new(alloc, failing(alloc, row.failing_sink)?);
    let status = morpheus(alloc, &words, &mut store, &mut out);
    let is_kept = holds(&store, "p.toml", Some(row.project))
        && holds(&store, "m.c", Some(row.unit));
    Ok(Outcome {
        status,
        is_printed: out.bytes() == row.printed.as_bytes(),
        is_kept,
    })
}

#[test]
fn each_row_has_its_answer(rt: HostRuntime) -> Result<(), Fail> {
    for row in &ROWS {
        let wanted = Outcome {
            status: row.status,
            is_printed: true,
            is_kept: true,
        };
        assert_eq!(rt; carried_out(rt.alloc(), row)?, wanted);
    }
    Ok(())
}

#[test]
fn told_room_suffices(rt: HostRuntime) -> Result<(), Fail> {
    let alloc = rt.alloc();
    let words = owned_words(alloc, &["tokens", "p.toml", "m.c", "B"])?;
    let mut store = SureStore::new(alloc, files_of(alloc, &FEATURE)?, 0, 0)?;
    let mut out = SureSink::new(alloc, 4)?;
    assert_eq!(rt; morpheus(alloc, &words, &mut store, &mut out), 0);
    assert_eq!(rt; out.bytes(), b"A\n1\n".as_slice());
    Ok(())
}
