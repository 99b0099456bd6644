use crate::rows::{failing, holds, owned_words};
use morpheus_top::morpheus;
use project_store::{MemorySink, MemoryStore, SureSink, SureStore};
use std::alloc::{AllocError, Global};
use std::test::Fail;
use text_edits::{Files, SourceFile};

const PROJECT: &str = "features = [\"A\", \"B\"]
[[unit]]
file = \"m.c\"
";

const WITH_A: &str = "features = [\"A\", \"B\"]
constraints = [\"A\"]
[[unit]]
file = \"m.c\"
";

const ENDS: &str = "int main(void) { return 0; }
";

const LOOPS: &str = "#include <stdio.h>
int main(void) { while (1) putchar(65); }
";

const OVERFLOWS: &str = "#include <stdio.h>
int main(void) { putchar(66); return 2147483647 + 1; }
";

const COPIES: &str = "#include <stdio.h>
int main(void) { int c; while ((c = getchar()) != EOF) putchar(c); }
";

const CLOSED_BY_A: &str = "int main(void) {
#ifdef A
}
#endif
";

const TWO_TYPES: &str = "int x;
char x;
int main(void) { return 0; }
";

const NO_MAIN: &str = "int x;
";

const OPEN_COMMENT: &str = "int main(void) { return 0; }
/* open
";

/// A file of the quick form, behind the line that declares `putchar`.
const QUICK: &str = "int putchar(int);
int x = 65;
#ifdef A
int left = 1;
#else
int left = 2;
#endif
int main(void) { while (left) { putchar(x + left); left = left - 1; } return x; }
";

const QUICK_USES_A: &str = "int putchar(int);
int A;
int main(void) { return A; }
";

/// A command `run p.toml NAMES BOUND INPUT`, and what it answers.
#[derive(Clone, Copy, Debug)]
struct Row {
    project: &'static str,
    unit: &'static str,
    names: &'static str,
    bound: &'static str,
    input: &'static str,
    /// The number of the call on the store that fails, or 0.
    failing_store: u32,
    /// The number of the call on the sink that fails, or 0.
    failing_sink: u32,
    status: u8,
    printed: &'static str,
}

const ENDED: Row = Row {
    project: PROJECT,
    unit: ENDS,
    names: "-",
    bound: "0",
    input: "-",
    failing_store: 0,
    failing_sink: 0,
    status: 0,
    printed: "\nended 0\n",
};

const RUNNING: Row = Row {
    unit: LOOPS,
    bound: "3",
    status: 11,
    printed: "AAA\nrunning\n",
    ..ENDED
};

const UNDEFINED: Row = Row {
    unit: OVERFLOWS,
    status: 10,
    printed: "B\nundefined\n",
    ..ENDED
};

const COPIED: Row = Row {
    unit: COPIES,
    bound: "2",
    input: "in",
    printed: "hi\nended 0\n",
    ..ENDED
};

const CUT_OFF: Row = Row {
    unit: COPIES,
    bound: "1",
    input: "in",
    status: 11,
    printed: "h\nrunning\n",
    ..ENDED
};

const UNKNOWN: Row = Row {
    names: "C",
    status: 2,
    printed: "usage\n",
    ..ENDED
};

const BOUND_TOO_LARGE: Row = Row {
    bound: "1000001",
    status: 2,
    printed: "usage\n",
    ..ENDED
};

const NOT_ADMITTED: Row = Row {
    project: WITH_A,
    unit: OPEN_COMMENT,
    status: 9,
    printed: "not admitted\n",
    ..ENDED
};

const NOT_PREPROCESSED: Row = Row {
    unit: OPEN_COMMENT,
    status: 9,
    printed: "not accepted preprocess\n",
    ..ENDED
};

const NOT_PARSED: Row = Row {
    unit: CLOSED_BY_A,
    status: 9,
    printed: "not accepted parse\n",
    ..ENDED
};

const PARSED_WITH_A: Row = Row {
    unit: CLOSED_BY_A,
    names: "A",
    ..ENDED
};

const NOT_TYPED: Row = Row {
    unit: TWO_TYPES,
    status: 9,
    printed: "not accepted type\n",
    ..ENDED
};

const NOT_LINKED: Row = Row {
    unit: NO_MAIN,
    status: 9,
    printed: "not accepted link\n",
    ..ENDED
};

/// The input is read last, and before anything is said of the configuration.
const INPUT_UNREAD: Row = Row {
    unit: OPEN_COMMENT,
    input: "in",
    failing_store: 3,
    status: 3,
    printed: "read fault\n",
    ..ENDED
};

const NO_INPUT_FILE: Row = Row {
    input: "out",
    status: 3,
    printed: "read fault\n",
    ..ENDED
};

const SINK_FAILS: Row = Row {
    failing_sink: 1,
    status: 6,
    printed: "",
    ..ENDED
};

const QUICK_WITHOUT_A: Row = Row {
    unit: QUICK,
    bound: "2",
    printed: "CB\nended 65\n",
    ..ENDED
};

const QUICK_WITH_A: Row = Row {
    unit: QUICK,
    names: "A",
    bound: "1",
    printed: "B\nended 65\n",
    ..ENDED
};

const QUICK_CUT_OFF: Row = Row {
    unit: QUICK,
    bound: "1",
    status: 11,
    printed: "C\nrunning\n",
    ..ENDED
};

const QUICK_USES_NO_FEATURE: Row = Row {
    unit: QUICK_USES_A,
    names: "B",
    ..ENDED
};

/// A feature that is on is replaced by `1`, which can't be declared.
const QUICK_USES_A_FEATURE: Row = Row {
    unit: QUICK_USES_A,
    names: "A",
    status: 9,
    printed: "not accepted parse\n",
    ..ENDED
};

/// The operand of unary `+` is used, and the call ends without a value.
const PLUS_USES_ITS_OPERAND: Row = Row {
    unit: "int f(void) { } int main(void) { +f(); return 0; }",
    bound: "1",
    status: 10,
    printed: "\nundefined\n",
    ..ENDED
};

/// The results of a discarded `?:` aren't used.
const DISCARDED_CHOICE: Row = Row {
    unit: "char f(void) { } int main(void) { 1 ? f() : 1; return 0; }",
    bound: "1",
    ..ENDED
};

/// A pointer to `void` can only be null.
const VOID_IS_READ: Row = Row {
    unit: "int main(void) { void *p = 0; *p; return 0; }",
    status: 10,
    printed: "\nundefined\n",
    ..ENDED
};

/// `&*p` doesn't evaluate `*p`.
const VOID_IS_NAMED: Row = Row {
    unit: "int main(void) { void *p = 0; return &*p == 0; }",
    printed: "\nended 1\n",
    ..ENDED
};

const ROWS: [Row; 25] = [
    ENDED,
    RUNNING,
    UNDEFINED,
    COPIED,
    CUT_OFF,
    UNKNOWN,
    BOUND_TOO_LARGE,
    NOT_ADMITTED,
    NOT_PREPROCESSED,
    NOT_PARSED,
    PARSED_WITH_A,
    NOT_TYPED,
    NOT_LINKED,
    INPUT_UNREAD,
    NO_INPUT_FILE,
    SINK_FAILS,
    QUICK_WITHOUT_A,
    QUICK_WITH_A,
    QUICK_CUT_OFF,
    QUICK_USES_NO_FEATURE,
    QUICK_USES_A_FEATURE,
    PLUS_USES_ITS_OPERAND,
    DISCARDED_CHOICE,
    VOID_IS_READ,
    VOID_IS_NAMED,
];

fn file(alloc: Global, name: &str, text: &str) -> Result<SourceFile, AllocError> {
    Ok(SourceFile {
        name: String::from_str(alloc, name)?,
        bytes: Vec::from_slice(alloc, text.as_bytes())?,
    })
}

/// The project file, the unit's, and the input.
fn files_of(alloc: Global, row: &Row) -> Result<Files, AllocError> {
    let mut list = Vec::new(alloc);
    list.push(file(alloc, "p.toml", row.project)?)?;
    list.push(file(alloc, "m.c", row.unit)?)?;
    list.push(file(alloc, "in", "hi")?)?;
    Ok(Files { list })
}

/// What a row's command answered, and what of the rest is as wanted.
#[derive(Clone, Copy, Debug, PartialEq, Eq)]
struct Outcome {
    status: u8,
    is_printed: bool,
    is_kept: bool,
}

/// Carries out a row's command.
fn carried_out(alloc: Global, row: &Row) -> Result<Outcome, AllocError> {
    let words = owned_words(alloc, &["run", "p.toml", row.names, row.bound, row.input])?;
    let files = files_of(alloc, row)?;
    let mut store = MemoryStore::new(alloc, files, failing(alloc, row.failing_store)?);
    let mut out = MemorySink::new(alloc, failing(alloc, row.failing_sink)?);
    let status = morpheus(alloc, &words, &mut store, &mut out);
    let is_kept = holds(&store, "p.toml", Some(row.project))
        && holds(&store, "m.c", Some(row.unit))
        && holds(&store, "in", Some("hi"));
    Ok(Outcome {
        status,
        is_printed: out.bytes() == row.printed.as_bytes(),
        is_kept,
    })
}

#[test]
fn each_row_has_its_answer(rt: HostRuntime) -> Result<(), Fail> {
    for row in &ROWS {
        let wanted = Outcome {
            status: row.status,
            is_printed: true,
            is_kept: true,
        };
        assert_eq!(rt; carried_out(rt.alloc(), row)?, wanted);
    }
    Ok(())
}

#[test]
fn told_room_suffices(rt: HostRuntime) -> Result<(), Fail> {
    let alloc = rt.alloc();
    let words = owned_words(alloc, &["run", "p.toml", "-", "2", "in"])?;
    let mut store = SureStore::new(alloc, files_of(alloc, &COPIED)?, 0, 0)?;
    let mut out = SureSink::new(alloc, 11)?;
    assert_eq!(rt; morpheus(alloc, &words, &mut store, &mut out), 0);
    assert_eq!(rt; out.bytes(), b"hi\nended 0\n".as_slice());
    Ok(())
}
