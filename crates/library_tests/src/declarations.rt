use cond_formula::{Config, Formula, NoMemory};
use cond_pairings::CondPairing;
use declared_tokens::DeclaredTokens;
use std::alloc::Global;
use std::test::Fail;

/// A name that is declared at token 1, and with feature 0 again at token 3 in a block; it is used at token 5.
fn used_in_a_block(alloc: Global) -> Result<DeclaredTokens, NoMemory> {
    let without = Formula::not(alloc, Formula::Var(0))?;
    let pairs = vec![in alloc;
        CondPairing {
            identifier: 1,
            declared_by: 1,
            when: Formula::True
        },
        CondPairing {
            identifier: 3,
            declared_by: 3,
            when: Formula::Var(0)
        },
        CondPairing {
            identifier: 5,
            declared_by: 3,
            when: Formula::Var(0)
        },
        CondPairing {
            identifier: 5,
            declared_by: 1,
            when: without
        },
    ]?;
    DeclaredTokens::from_pairs(alloc, &pairs)
}

/// The same without the block's declaration.
fn used_at_file_scope(alloc: Global) -> Result<DeclaredTokens, NoMemory> {
    let pairs = vec![in alloc;
        CondPairing {
            identifier: 1,
            declared_by: 1,
            when: Formula::True
        },
        CondPairing {
            identifier: 3,
            declared_by: 3,
            when: Formula::Var(0)
        },
        CondPairing {
            identifier: 5,
            declared_by: 1,
            when: Formula::True
        },
    ]?;
    DeclaredTokens::from_pairs(alloc, &pairs)
}

#[test]
fn a_token_is_declared_by_configuration(rt: HostRuntime) -> Result<(), Fail> {
    let declared = used_in_a_block(rt.alloc())?;
    let with = Config { bits: 1 };
    let without = Config { bits: 0 };
    assert_eq!(rt; declared.declaration(5, with), Some(3));
    assert_eq!(rt; declared.declaration(5, without), Some(1));
    assert_eq!(rt; declared.declaration(3, without), None);
    assert_eq!(rt; declared.declaration(2, with), None);
    assert_eq!(rt; declared.declaration(6, with), None);
    let by_itself = declared.where_declared_by(rt.alloc(), 3, 3)?;
    assert!(rt; by_itself.value(with));
    assert!(rt; !by_itself.value(without));
    Ok(())
}

#[test]
fn tokens_differ_where_they_are_declared_otherwise(rt: HostRuntime) -> Result<(), Fail> {
    let alloc = rt.alloc();
    let captured = used_in_a_block(alloc)?;
    let free = used_at_file_scope(alloc)?;
    let differs = captured.where_otherwise(alloc, &free)?;
    assert_eq!(rt; differs.value(Config { bits: 1 }), true);
    assert_eq!(rt; differs.value(Config { bits: 0 }), false);
    Ok(())
}
