//! A class of three tokens in one file, of which a directive line leaves out one.

ghost use Rattle.std.specs.Prelude.{◌<◌, ◌≤◌, length, All, IfOk};
ghost use Rattle.text_edits.specs.Files.{plain_files};

use crate::{count_renamed, edits_of, name_at, renamed, token_at};
use c_text::FileToken;
use std::alloc::{AllocError, Global};
use std::test::Fail;
use text_edits::{Files, SourceFile, Span};

const BEFORE: &[u8] =
    b"#ifdef A\nint x;\n#else\nlong x;\n#endif\nint main(void) { x = 1; return 0; }\n";

fn files(alloc: Global) -> Result<Files, AllocError>
    ensures { IfOk result (λ files. All (λ f. length f.bytes ≤ 4294967295) (plain_files files)) }
{
    let name = String::from_str(alloc, "m.c")?;
    let bytes = Vec::from_slice(alloc, BEFORE)?;
    let list = vec![in alloc; SourceFile { name, bytes }]?;
    Ok(Files { list })
}

fn token(start: u32) -> FileToken
    requires { start < 4294967295 }
{
    FileToken {
        file: 0,
        span: Span {
            start,
            end: start + 1,
        },
    }
}

#[test]
fn an_offset_stands_for_a_name(rt: HostRuntime) -> Result<(), Fail> {
    let alloc = rt.alloc();
    let files = files(alloc)?;
    match token_at(alloc, &files, 0, 13)? {
        Some(found) => {
            assert_eq!(rt; (found.span.start, found.span.end), (13, 14));
            match name_at(alloc, &files, &found)? {
                Some(name) => assert_eq!(rt; name.as_slice(), b"x".as_slice()),
                None => assert!(rt; false),
            }
        }
        None => assert!(rt; false),
    }
    assert!(rt; token_at(alloc, &files, 0, 12)?.is_none());
    Ok(())
}

#[test]
fn three_tokens_have_edits(rt: HostRuntime) -> Result<(), Fail> {
    let alloc = rt.alloc();
    let files = files(alloc)?;
    let tokens = [token(13), token(27), token(54)];
    let count = count_renamed(&files, &tokens);
    assert_eq!(rt; (count.tokens, count.files), (3, 1));
    let edits = edits_of(alloc, 1, &tokens, b"ya")?;
    assert_eq!(rt; edits.len(), 3);
    for edit in &edits {
        assert_eq!(rt; edit.file, 0);
        assert_eq!(rt; edit.text.as_slice(), b"ya".as_slice());
    }
    Ok(())
}

#[test]
fn files_stay_where_no_token_is_renamed(rt: HostRuntime) -> Result<(), Fail> {
    let alloc = rt.alloc();
    let files = files(alloc)?;
    let done = renamed(alloc, &files, &[], b"ya")?;
    match done.list.get(0) {
        Some(file) => assert_eq!(rt; file.bytes.as_slice(), BEFORE),
        None => assert!(rt; false),
    }
    Ok(())
}
