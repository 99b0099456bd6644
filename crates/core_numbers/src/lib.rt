//! What the identifiers of a unit are bound to doesn't depend on the numbers that a core program gives names (ISO/IEC 9899:2011, 6.2.1). Here are
//! the definitions (in `specs/`) and the law, the contract of a function without a body of its own.
#![tactic(auto)]

ghost use Rattle.core_numbers.specs.Laws.{BindingsNeedNoNumbers};

/// A unit that is judged well with some numbers, and with others, binds its identifiers the same.
pub fn bindings_need_no_numbers()
    ensures { BindingsNeedNoNumbers }
{
    cond_sizes::counts_need_no_names();
    bound_slots::sizes_bind_nothing();
}
