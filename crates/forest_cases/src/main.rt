//! Forests of small units, each compared with the trees of its configurations. With the name of a family and a number of features: how
//! large its forest is, in tokens, leaves, items and nodes of conditions.
#![tactic(auto)]

mod comparing;
mod families;
mod growth;
mod random;
mod streams;

use comparing::{compared, read};
use cond_formula::Config;
use families::FAMILIES;
use std::alloc::Global;
use std::env;
use std::rt::Env;

/// What is said of a unit in each configuration of its first features.
fn show<R: Print>(
    rt: &R,
    alloc: Global,
    name: &str,
    text: &[u8],
    features: u32,
) -> anyhow::Result<()> {
    let (stream, parsed) = read(alloc, text)?;
    print!(rt; "{name}:")?;
    let mut all = 1u32;
    for _ in 0..features {
        all = all.saturating_mul(2);
    }
    for bits in 0..all {
        let said = compared(
            alloc,
            &stream,
            &parsed,
            Config {
                bits: u128::from(bits),
            },
        )?;
        print!(rt; " {said}")?;
    }
    println!(rt; "")?;
    Ok(())
}

fn rows<R: Print>(rt: &R, alloc: Global) -> anyhow::Result<()> {
    let else_part =
        b"int g;\nint main(void) {\nif (g) g = 1;\n#ifdef A\nelse g = 2;\n#endif\nreturn 0;\n}\n";
    show(rt, alloc, "else part", else_part, 1)?;
    let brace = b"int main(void) {\n#ifdef A\n}\n#endif\n";
    show(rt, alloc, "brace", brace, 1)?;
    let twice = b"int main(void) {\n}\n#ifdef A\n}\n#endif\nint x;\n";
    show(rt, alloc, "one brace more", twice, 1)?;
    let last = b"int x;\n#ifdef A\n}\n#endif\n";
    show(rt, alloc, "brace at the end", last, 1)?;
    let stars = b"int\n#ifdef A\n*\n#endif\nx\n#ifdef B\n= 1\n#else\n[2]\n#endif\n;\n";
    show(rt, alloc, "declarator", stars, 2)?;
    let left = b"int f(void) { return\n#ifdef A\n1\n#endif\n#ifdef B\n+ 2\n#endif\n; }\n";
    show(rt, alloc, "operand", left, 2)?;
    let body = b"int f(void) { while (1)\n#ifdef A\n;\n#endif\n#ifdef B\nf();\n#endif\n}\n";
    show(rt, alloc, "body", body, 2)
}

/// A unit with so many parentheses within each other.
fn parentheses(alloc: Global, count: usize) -> anyhow::Result<Vec<u8>> {
    let mut text = Vec::new(alloc);
    text.extend_from_slice(b"int x = ")?;
    for _ in 0..count {
        text.push(b'(')?;
    }
    text.push(b'1')?;
    for _ in 0..count {
        text.push(b')')?;
    }
    text.push(b';')?;
    Ok(text)
}

/// What is said of units with parentheses within each other, and whether their forests are made at all.
fn deep<R: Print>(rt: &R, alloc: Global) -> anyhow::Result<()> {
    for count in [200, 600, 100000] {
        let text = parentheses(alloc, count)?;
        match read(alloc, text.as_slice()) {
            Ok((stream, parsed)) => {
                let said = compared(alloc, &stream, &parsed, Config { bits: 0 })?;
                println!(rt; "{count} parentheses: {said}")?;
            }
            Err(_) => println!(rt; "{count} parentheses: too deep to be followed")?,
        }
    }
    Ok(())
}

/// Compares the forests of the rows, of units with conditions at random places and of the families with the trees.
fn compare_all<R: Print>(rt: &R, alloc: Global) -> anyhow::Result<()> {
    rows(rt, alloc)?;
    deep(rt, alloc)?;
    let statements =
        b"int f(int a, int b) { if (a) b = 1; else if (b) a = 2; else { a = 3; b = 4; } while (a < 3) a++; for (int i = 0; i < 3; i++) f(i, a); do { a = 1; } while (b); return a + b * 2; }";
    random::try_some(rt, alloc, statements, 3, 60, 2)?;
    let declarations =
        b"struct S { int a, b[3]; char *c; }; int x = 1, y[2] = { 1, 2, }, *z; static int g(int, char *p); extern long h; unsigned long k(void) { int q = (int) 1 + -2, r; { ; } g(1, \"a\" \"b\"); return q ? r : x; }";
    random::try_some(rt, alloc, declarations, 5, 60, 2)?;
    for family in &FAMILIES {
        growth::compare_family(rt, alloc, *family)?;
    }
    Ok(())
}

/// How large the forest of the family with this name is for each number of features.
fn measure<R: Print>(rt: &R, alloc: Global, name: &str, features: &str) -> anyhow::Result<()> {
    for family in &FAMILIES {
        if family.name.as_bytes() == name.as_bytes() {
            for n in [8, 16, 32, 64] {
                if n <= family.most && format!(in alloc; "{n}")?.as_bytes() == features.as_bytes() {
                    growth::measure_family(rt, alloc, *family, n)?;
                }
            }
        }
    }
    Ok(())
}

fn run<R: Env + Print + AllocGlobal>(rt: &R) -> anyhow::Result<()> {
    let alloc = rt.alloc();
    let words: Vec<String> = env::args(rt)?.skip(1).collect(alloc)?;
    match words.as_slice() {
        [name, features] => measure(rt, alloc, name, features),
        _ => compare_all(rt, alloc),
    }
}

fn main(rt: HostRuntime) -> anyhow::Result<()> {
    run(&rt)
}
