//! A renaming in a project of a header and a unit.

use crate::{RenameWords, asked_rename};
use project_file::parse_project;
use std::alloc::{AllocError, Global};
use std::test::Fail;

const PROJECT: &[u8] = b"features = [\"A\"]\nheaders = [\"m.h\"]\n[[unit]]\nfile = \"m.c\"\n";

fn words(alloc: Global) -> Result<Vec<String>, AllocError> {
    let mut words = Vec::new(alloc);
    for word in ["p.toml", "m.c@13", "y", "out"] {
        words.push(String::from_str(alloc, word)?)?;
    }
    Ok(words)
}

#[test]
fn words_ask_for_a_renaming(rt: HostRuntime) -> Result<(), Fail> {
    let alloc = rt.alloc();
    let words = words(alloc)?;
    match asked_rename(alloc, &words)? {
        Some(query) => {
            assert_eq!(rt;
                (query.project, query.file, query.offset),
                ("p.toml", "m.c", 13)
            );
            assert_eq!(rt; (query.new, query.out), ("y", "out"));
        }
        None => assert!(rt; false),
    }
    Ok(())
}

#[test]
fn the_unit_stands_behind_the_header(rt: HostRuntime) -> Result<(), Fail> {
    let alloc = rt.alloc();
    let query = RenameWords {
        project: "p.toml",
        file: "m.c",
        offset: 13,
        new: "y",
        out: "out",
    };
    let project = parse_project(alloc, "p.toml", PROJECT)?;
    assert_eq!(rt; query.fits(&project), Some(1));
    Ok(())
}
