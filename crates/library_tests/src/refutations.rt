ghost use Rattle.std.specs.Prelude.{◌<◌, IfOk};

use refute_check::{CheckError, CheckKind, Checker, refuted_clauses_are_unsatisfiable};
use std::alloc::Global;
use std::test::Fail;

fn with_two_clauses(alloc: Global) -> Result<Checker, Fail>
    ensures { IfOk result (λ checker. 0 < checker.spare_clauses) }
{
    let mut checker = Checker::new(alloc, 1, 8, 8)?;
    checker.add(&[1])?;
    checker.add(&[-1])?;
    Ok(checker)
}

#[test]
fn a_refutation_is_accepted(rt: HostRuntime) -> Result<(), Fail> {
    let mut checker = with_two_clauses(rt.alloc())?;
    checker.line(&[], &[1, 2])?;
    checker.finish()?;
    assert_eq!(rt; checker.spare_clauses(), 5);
    assert_eq!(rt; checker.spare_literals(), 6);
    Ok(())
}

#[test]
fn a_step_is_refused_by_its_hints(rt: HostRuntime) -> Result<(), Fail> {
    let mut twice = with_two_clauses(rt.alloc())?;
    let refusal = CheckError {
        kind: CheckKind::BadHint,
        line: 3,
    };
    assert_eq!(rt; twice.line(&[], &[2, 2]), Err(refusal));
    assert_eq!(rt; twice.finish(), Err(refusal));
    let mut short = with_two_clauses(rt.alloc())?;
    let refusal = CheckError {
        kind: CheckKind::NotFalse,
        line: 3,
    };
    assert_eq!(rt; short.line(&[], &[1]), Err(refusal));
    Ok(())
}

#[test]
fn the_law_can_be_cited() {
    refuted_clauses_are_unsatisfiable();
}
