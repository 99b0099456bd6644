//! The recursion of macro replacement: a list, and the lists of bodies and arguments one level below (6.10.3.4).
ghost use Rattle.std.specs.Prelude.{◌≡◌, ℕ, Bool, true, false, not, ◌&&◌, List, [], ◌∷◌, ◌++◌, map, Option, is_some, if◌then◌else◌, IsTrue, IfOk, OnOk};
ghost use Rattle.c_text.specs.Token.{PlainToken, plain_token};
ghost use Rattle.c_text.specs.Macros as spec;
ghost use Rattle.cond_formula.specs.Features.{has};
ghost use Rattle.cond_formula.specs.Conditions.{condition_of, value};
ghost use Rattle.conditional.specs.Entries.{entries_of, seen};
ghost use Rattle.cond_bodies.specs.CondItems.{item_at, items_at};
ghost use Rattle.cond_bodies.specs.CondMeanings.{Means, plain_function};
ghost use Rattle.cond_runs.specs.Functions.{is_single, or_function, some_seen, without_params, kept_item};
ghost use Rattle.cond_runs.specs.CondArguments.{lists_at};
ghost use Rattle.cond_runs.specs.CondCalls.{call_at, calls_at, closes, held_at};
ghost use Rattle.cond_runs.specs.CondFinished.{given_at};
ghost use Rattle.cond_runs.specs.CondRuns.{run_at};
ghost use Rattle.cond_macros.specs.CondLevels.{macros_in, active_in, deeper_in, is_within, replaced_at};
ghost use Rattle.cond_macros.specs.Below.{cores_of, all_cores_of, behind_lists, one_list};
ghost use Rattle.cond_macros.specs.Owned.{IsOwn, AreOwn};
ghost use Rattle.cond_macros.specs.Readings.{look, ListBecomes};
ghost use Rattle.cond_runs.specs.Pieces.{also, under_piece, items_piece, given_piece, open_piece, brought_again, some_open, without_calls, turn_piece, turn_pieces, outside_piece};

use c_text::Token;
use cond_bodies::{
    Function, Item, Level, Meanings, inner, is_active, joined_body, may, meanings_of, when_opens,
    when_some,
};
use cond_formula::{Formula, NoMemory, Oracle};
use cond_runs::{Call, Finished, Run, all_arguments, all_fitting, copied_functions};
use conditional::Guarded;
use reduced_conditions::{both, either, is_never, without};
use std::alloc::Global;
use std::mem;

/// The arguments of a call, each replaced by itself, and where one is refused.
#[derive(Drop)]
pub struct Replaced<'t> {
    pub lists: Vec<Vec<Guarded<Item<'t>>>>,
    pub refused: Formula,
}

impl<'t> Replaced<'t> {
    // One more argument.
    #[tactic(auto, unfolding(cond_runs::specs::CondFinished::given_at))]
    fn add(&mut self, alloc: Global, argument: Finished<'t>) -> Result<(), NoMemory>
        ensures { OnOk result ((on : ℕ → Bool) → replaced_at on self.new ≡ behind_lists (replaced_at on self.old) (one_list (given_at false on argument.entry))) }
    {
        let Finished { items, refused } = argument;
        self.lists.push(items)?;
        let before = mem::replace(&mut self.refused, Formula::False);
        let refused = either(alloc, before, refused)?;
        self.refused = refused;
        Ok(())
    }
}

fn with_name<'t>(
    alloc: Global,
    name: &'t Token,
    active: &[&'t Token],
) -> Result<Vec<&'t Token>, NoMemory>
    ensures { IfOk result (λ names. map (λ n. n.now.text.items) names.items ≡ name.now.text.items ∷ map (λ n. n.now.text.items) active.now) }
{
    let mut names = Vec::new(alloc);
    names.push(name)?;
    names.extend_from_slice(active)?;
    Ok(names)
}

// A list one level below.
#[cycle(lists)]
fn deeper<'t, O: Oracle>(
    level: &Level<'t, '_>,
    oracle: &mut O,
    items: &[Guarded<Item<'t>>],
) -> Result<Finished<'t>, NoMemory>
    ensures kept { O.admits oracle.new ≡ O.admits oracle.old }
    ensures given { IfOk result (λ f. (c : List Bool) → IsTrue (value (has c) (O.admits oracle.old)) → IsTrue (is_within c level.now) → given_at false (has c) f ≡ cores_of (deeper_in c level.now (active_in level.now) (items_at (has c) items.now))) }
{
    if level.left == 0 {
        return Ok(Finished::nothing(level.alloc, Formula::True));
    }
    let inner = Level {
        alloc: level.alloc,
        macros: level.macros,
        feature: level.feature,
        active: level.active,
        left: level.left - 1,
        within: level.within,
    };
    replaced_list(&inner, oracle, items)
}

// What replaces a name whose bodies, with their arguments, are this list.
#[cycle(lists)]
fn replacement<'t, O: Oracle>(
    level: &Level<'t, '_>,
    oracle: &mut O,
    name: &'t Token,
    within: &Formula,
    body: &[Guarded<Item<'t>>],
) -> Result<Finished<'t>, NoMemory>
    ensures kept { O.admits oracle.new ≡ O.admits oracle.old }
    ensures given { IfOk result (λ f. (c : List Bool) (first last : PlainToken) → IsTrue (value (has c) (O.admits oracle.old)) → IsTrue (value (has c) (condition_of within.now)) → first.text ≡ name.now.text.items → given_at false (has c) f ≡ cores_of (spec.replacement (macros_in c level.now) (deeper_in c level.now) (active_in level.now) first last (items_at (has c) body.now))) }
{
    let names = with_name(level.alloc, name, level.active)?;
    let inner = Level {
        alloc: level.alloc,
        macros: level.macros,
        feature: level.feature,
        active: names.as_slice(),
        left: level.left,
        within,
    };
    let f = deeper(&inner, oracle, body)?;
    f.unless_left_open(level.alloc, &level.macros)
}

// The arguments of a call, each replaced by itself.
#[cycle(lists)]
fn arguments_replaced<'t, O: Oracle>(
    level: &Level<'t, '_>,
    oracle: &mut O,
    within: &Formula,
    arguments: &[Vec<Guarded<Item<'t>>>],
) -> Result<Replaced<'t>, NoMemory>
    ensures kept { O.admits oracle.new ≡ O.admits oracle.old }
    ensures replaced { IfOk result (λ r. (c : List Bool) → IsTrue (value (has c) (O.admits oracle.old)) → IsTrue (value (has c) (condition_of within.now)) → replaced_at (has c) r ≡ all_cores_of (spec.all_replaced (deeper_in c level.now) (active_in level.now) (lists_at (has c) arguments.now))) }
{
    let inner = Level {
        alloc: level.alloc,
        macros: level.macros,
        feature: level.feature,
        active: level.active,
        left: level.left,
        within,
    };
    let mut replaced = Replaced {
        lists: Vec::with_capacity(level.alloc, arguments.len())?,
        refused: Formula::False,
    };
    for argument in arguments {
        let f = deeper(&inner, oracle, argument.as_slice())?;
        replaced.add(level.alloc, f)?;
    }
    Ok(replaced)
}

// What functions that fit bring with these arguments.
#[cycle(lists)]
fn fitting_brought<'t, O: Oracle>(
    level: &Level<'t, '_>,
    oracle: &mut O,
    name: &'t Token,
    within: &Formula,
    functions: &[Guarded<Function<'t>>],
    arguments: &[Vec<Guarded<Item<'t>>>],
) -> Result<Finished<'t>, NoMemory>
    ensures kept { O.admits oracle.new ≡ O.admits oracle.old }
    ensures given { IfOk result (λ f. (c : List Bool) (call : spec.Call) (last : PlainToken) → IsTrue (value (has c) (O.admits oracle.old)) → IsTrue (value (has c) (condition_of within.now)) → name.now.text.items ≡ call.name.text → seen (has c) (entries_of plain_function functions.now) ≡ record { params = call.params; body = call.body } ∷ [] → lists_at (has c) arguments.now ≡ spec.all_arguments call → given_at false (has c) f ≡ cores_of (spec.body_replacement (macros_in c level.now) (deeper_in c level.now) (active_in level.now) call last (spec.all_replaced (deeper_in c level.now) (active_in level.now) (spec.all_arguments call)))) }
{
    let replaced = arguments_replaced(level, oracle, within, arguments)?;
    let body = joined_body(level.alloc, functions, replaced.lists.as_slice())?;
    let f = replacement(level, oracle, name, within, body.as_slice())?;
    f.refused_too(level.alloc, replaced.refused)
}

// What a call of one of these functions brings with these arguments.
#[cycle(lists)]
fn brought<'t, O: Oracle>(
    level: &Level<'t, '_>,
    oracle: &mut O,
    name: &'t Token,
    within: &Formula,
    functions: &[Guarded<Function<'t>>],
    arguments: &[Vec<Guarded<Item<'t>>>],
) -> Result<Finished<'t>, NoMemory>
    ensures kept { O.admits oracle.new ≡ O.admits oracle.old }
    ensures given { IfOk result (λ f. (c : List Bool) (call : spec.Call) (last : PlainToken) → IsTrue (value (has c) (O.admits oracle.old)) → IsTrue (value (has c) (condition_of within.now)) → name.now.text.items ≡ call.name.text → seen (has c) (entries_of plain_function functions.now) ≡ record { params = call.params; body = call.body } ∷ [] → lists_at (has c) arguments.now ≡ spec.all_arguments call → given_at false (has c) f ≡ cores_of (spec.call_replacement (macros_in c level.now) (deeper_in c level.now) (active_in level.now) call last)) }
{
    let fit = all_fitting(level.alloc, functions, arguments)?;
    if fit.is_none() {
        return Ok(Finished::nothing(level.alloc, fit.unfit));
    }
    let f = fitting_brought(
        level,
        oracle,
        name,
        within,
        fit.functions.as_slice(),
        arguments,
    )?;
    f.refused_too(level.alloc, fit.unfit)
}

// A call with all its arguments.
#[derive(Drop)]
struct EndedCall<'t> {
    when: Formula,
    name: &'t Token,
    functions: Vec<Guarded<Function<'t>>>,
    arguments: Vec<Vec<Guarded<Item<'t>>>>,
}

// The call, of which the last argument ends.
fn end_call<'t>(call: Call<'t>) -> Result<EndedCall<'t>, NoMemory>
    ensures when { IfOk result (λ ended. condition_of ended.when ≡ condition_of call.entry.when) }
    ensures name { IfOk result (λ ended. ended.name.now ≡ call.entry.name.token.now) }
    ensures functions { IfOk result (λ ended. ended.functions ≡ call.entry.functions) }
    ensures arguments { IfOk result (λ ended. (on : ℕ → Bool) → lists_at on ended.arguments.items ≡ lists_at on call.entry.arguments.items ++ items_at on call.entry.last.items ∷ []) }
{
    let Call {
        when,
        name,
        functions,
        arguments,
        last,
        nested: _,
    } = call;
    let arguments = all_arguments(arguments, last)?;
    Ok(EndedCall {
        when,
        name: name.token,
        functions,
        arguments,
    })
}

// What a call that has ended brings, where it is open.
#[cycle(lists)]
fn called<'t, O: Oracle>(
    level: &Level<'t, '_>,
    oracle: &mut O,
    call: &EndedCall<'t>,
) -> Result<Finished<'t>, NoMemory>
    ensures kept { O.admits oracle.new ≡ O.admits oracle.old }
    ensures given { IfOk result (λ f. (c : List Bool) (plain : spec.Call) (last : PlainToken) → IsTrue (value (has c) (O.admits oracle.old)) → IsTrue (is_within c level.now) → value (has c) (condition_of call.now.when) ≡ true → call.now.name.now.text.items ≡ plain.name.text → seen (has c) (entries_of plain_function call.now.functions.items) ≡ record { params = plain.params; body = plain.body } ∷ [] → lists_at (has c) call.now.arguments.items ≡ spec.all_arguments plain → given_at false (has c) f ≡ cores_of (spec.call_replacement (macros_in c level.now) (deeper_in c level.now) (active_in level.now) plain last)) }
{
    let within = inner(level.alloc, level.within, &call.when)?;
    brought(
        level,
        oracle,
        call.name,
        &within,
        call.functions.as_slice(),
        call.arguments.as_slice(),
    )
}

// Goes on with a call by an item that is present and doesn't end it.
fn go_on<'t>(
    alloc: Global,
    run: &mut Run<'t>,
    mut call: Call<'t>,
    item: &Item<'t>,
) -> Result<(), NoMemory>
    requires { (on : ℕ → Bool) → closes (call_at on call) (item_at on item.now).token ≡ false }
    ensures { OnOk result ((exact : Bool) (on : ℕ → Bool) (table : spec.Table) (deeper : spec.Deeper) (active : List (List ℕ)) → run_at exact on run.new ≡ also (run_at exact on run.old) (under_piece (value on (condition_of call.entry.when)) (turn_piece exact table deeper active true (held_at on call.entry) (item_at on item.now) (plain_token item.now.token.now)))) }
{
    call.read(alloc, item.try_clone(alloc)?)?;
    run.push_call(call)
}

// Reads an item that ends a call or goes on with it, where the call is open and the item is present.
#[cycle(lists)]
fn present_turn<'t, O: Oracle>(
    level: &Level<'t, '_>,
    oracle: &mut O,
    run: &mut Run<'t>,
    call: Call<'t>,
    item: &Item<'t>,
) -> Result<(), NoMemory>
    ensures kept { O.admits oracle.new ≡ O.admits oracle.old }
    ensures read { OnOk result ((exact : Bool) (c : List Bool) → IsTrue (value (has c) (O.admits oracle.old)) → IsTrue (is_within c level.now) → run_at exact (has c) run.new ≡ also (run_at exact (has c) run.old) (under_piece (value (has c) (condition_of call.entry.when)) (turn_piece exact (macros_in c level.now) (deeper_in c level.now) (active_in level.now) true (held_at (has c) call.entry) (item_at (has c) item.now) (plain_token item.now.token.now)))) }
{
    let alloc = level.alloc;
    let possible = may(alloc, oracle, level.within, &call.when)?;
    if !possible {
        return Ok(());
    }
    if call.is_closed_by(item) {
        let ended = end_call(call)?;
        let given = called(level, oracle, &ended)?;
        return run.take(alloc, &ended.when, &given, ended.name, item.token);
    }
    go_on(alloc, run, call, item)
}

// The call stays open where the condition holds, which implies its own.
fn push_copy<'t, O: Oracle>(
    alloc: Global,
    within: &Formula,
    oracle: &mut O,
    run: &mut Run<'t>,
    call: &Call<'t>,
    when: Formula,
) -> Result<(), NoMemory>
    requires { (c : List Bool) → value (has c) (condition_of when) ≡ true → value (has c) (condition_of call.now.when) ≡ true }
    ensures kept { O.admits oracle.new ≡ O.admits oracle.old }
    ensures read { OnOk result ((exact : Bool) (c : List Bool) → IsTrue (value (has c) (O.admits oracle.old)) → IsTrue (value (has c) (condition_of within.now)) → run_at exact (has c) run.new ≡ also (run_at exact (has c) run.old) (under_piece (value (has c) (condition_of when)) (open_piece (held_at (has c) call.now ∷ [])))) }
{
    let possible = may(alloc, oracle, within, &when)?;
    if !possible {
        return Ok(());
    }
    let copy = call.copied(alloc, when)?;
    run.push_call(copy)
}

// The call stays open where an item isn't present. The answer is where the item is present, and the call is open.
fn stay_elsewhere<'t, O: Oracle>(
    alloc: Global,
    within: &Formula,
    oracle: &mut O,
    run: &mut Run<'t>,
    call: &Call<'t>,
    when: &Formula,
) -> Result<Formula, NoMemory>
    ensures kept { O.admits oracle.new ≡ O.admits oracle.old }
    ensures here { IfOk result (λ here. (on : ℕ → Bool) → value on (condition_of here) ≡ (value on (condition_of call.now.when) && value on (condition_of when.now))) }
    ensures read { IfOk result (λ here. (exact : Bool) (c : List Bool) → IsTrue (value (has c) (O.admits oracle.old)) → IsTrue (value (has c) (condition_of within.now)) → run_at exact (has c) run.new ≡ also (run_at exact (has c) run.old) (under_piece (value (has c) (condition_of call.now.when) && not (value (has c) (condition_of when.now))) (open_piece (held_at (has c) call.now ∷ [])))) }
{
    let elsewhere = without(alloc, call.when.try_clone(alloc)?, when)?;
    push_copy(alloc, within, oracle, run, call, elsewhere)?;
    inner(alloc, &call.when, when)
}

// An item that only lengthens the last argument of a call, where it is present.
fn lengthen<'t>(
    alloc: Global,
    run: &mut Run<'t>,
    mut call: Call<'t>,
    entry: &Guarded<Item<'t>>,
) -> Result<(), NoMemory>
    requires { (on : ℕ → Bool) → spec.progress (call_at on call) (item_at on entry.now.what) ≡ spec.goes_on (spec.with_item (call_at on call) (item_at on entry.now.what)) }
    ensures { OnOk result ((exact : Bool) (on : ℕ → Bool) (table : spec.Table) (deeper : spec.Deeper) (active : List (List ℕ)) → run_at exact on run.new ≡ also (run_at exact on run.old) (under_piece (value on (condition_of call.entry.when)) (turn_piece exact table deeper active (value on (condition_of entry.now.when)) (held_at on call.entry) (item_at on entry.now.what) (plain_token entry.now.what.token.now)))) }
{
    call.lengthen(entry.when.try_clone(alloc)?, entry.what.try_clone(alloc)?)?;
    run.push_call(call)
}

// Reads an item in an open call.
#[cycle(lists)]
fn call_turn<'t, O: Oracle>(
    level: &Level<'t, '_>,
    oracle: &mut O,
    run: &mut Run<'t>,
    call: Call<'t>,
    entry: &Guarded<Item<'t>>,
) -> Result<(), NoMemory>
    ensures kept { O.admits oracle.new ≡ O.admits oracle.old }
    ensures read { OnOk result ((exact : Bool) (c : List Bool) → IsTrue (value (has c) (O.admits oracle.old)) → IsTrue (is_within c level.now) → run_at exact (has c) run.new ≡ also (run_at exact (has c) run.old) (under_piece (value (has c) (condition_of call.entry.when)) (turn_piece exact (macros_in c level.now) (deeper_in c level.now) (active_in level.now) (value (has c) (condition_of entry.now.when)) (held_at (has c) call.entry) (item_at (has c) entry.now.what) (plain_token entry.now.what.token.now)))) }
{
    let alloc = level.alloc;
    if !call.is_split_by(&entry.what) {
        return lengthen(alloc, run, call, entry);
    }
    let here = stay_elsewhere(alloc, level.within, oracle, run, &call, &entry.when)?;
    let call = call.narrowed(here);
    present_turn(level, oracle, run, call, &entry.what)
}

// Reads an item in all calls that are open. The answer is where none is.
#[cycle(lists)]
fn inside_turn<'t, O: Oracle>(
    level: &Level<'t, '_>,
    oracle: &mut O,
    run: &mut Run<'t>,
    entry: &Guarded<Item<'t>>,
) -> Result<Formula, NoMemory>
    ensures kept { O.admits oracle.new ≡ O.admits oracle.old }
    ensures outside { IfOk result (λ f. (on : ℕ → Bool) → value on (condition_of f) ≡ (value on (condition_of entry.now.when) && not (some_open (calls_at on run.old.calls.items)))) }
    ensures read { IfOk result (λ f. (exact : Bool) (c : List Bool) → IsTrue (value (has c) (O.admits oracle.old)) → IsTrue (is_within c level.now) → run_at exact (has c) run.new ≡ also (without_calls (run_at exact (has c) run.old)) (turn_pieces exact (macros_in c level.now) (deeper_in c level.now) (active_in level.now) (value (has c) (condition_of entry.now.when)) (calls_at (has c) run.old.calls.items) (item_at (has c) entry.now.what) (plain_token entry.now.what.token.now))) }
{
    let calls = run.taken_calls(level.alloc);
    let mut outside = entry.when.try_clone(level.alloc)?;
    for call in calls {
        outside = without(level.alloc, outside, &call.when)?;
        call_turn(level, oracle, run, call, entry)?;
    }
    Ok(outside)
}

// A name is replaced as a feature, where both conditions hold.
fn feature_turn<'t>(
    alloc: Global,
    feature: &'t Token,
    run: &mut Run<'t>,
    when: &Formula,
    on_where: &Formula,
    item: &Item<'t>,
) -> Result<(), NoMemory>
    ensures { OnOk result ((exact : Bool) (on : ℕ → Bool) → run_at exact on run.new ≡ also (run_at exact on run.old) (under_piece (value on (condition_of when.now) && value on (condition_of on_where.now)) (items_piece exact (spec.brought (plain_token item.now.token.now) (plain_token item.now.token.now) (spec.fresh (plain_token feature.now)) ∷ [])))) }
{
    let here = inner(alloc, when, on_where)?;
    if is_never(&here) {
        return Ok(());
    }
    let fresh = Item::fresh(alloc, feature);
    let brought = fresh.brought(alloc, item.token, item.token)?;
    run.push_item(here, brought)
}

// A name whose definitions have these bodies, where the condition holds.
#[cycle(lists)]
fn object_turn<'t, O: Oracle>(
    level: &Level<'t, '_>,
    oracle: &mut O,
    run: &mut Run<'t>,
    when: &Formula,
    item: &Item<'t>,
    objects: &[Guarded<Function<'t>>],
) -> Result<(), NoMemory>
    ensures kept { O.admits oracle.new ≡ O.admits oracle.old }
    ensures read { OnOk result ((exact : Bool) (c : List Bool) (body : List PlainToken) → IsTrue (value (has c) (O.admits oracle.old)) → IsTrue (is_within c level.now) → (value (has c) (condition_of when.now) ≡ true → seen (has c) (entries_of plain_function objects.now) ≡ record { params = []; body = body } ∷ []) → run_at exact (has c) run.new ≡ also (run_at exact (has c) run.old) (under_piece (value (has c) (condition_of when.now)) (given_piece exact (brought_again (plain_token item.now.token.now) (plain_token item.now.token.now) (spec.replacement (macros_in c level.now) (deeper_in c level.now) (active_in level.now) (item_at (has c) item.now).token (item_at (has c) item.now).token (map spec.fresh body)))))) }
{
    let alloc = level.alloc;
    let possible = may(alloc, oracle, level.within, when)?;
    if !possible {
        return Ok(());
    }
    let body = joined_body(alloc, objects, &[])?;
    let within = inner(alloc, level.within, when)?;
    let given = replacement(level, oracle, item.token, &within, body.as_slice())?;
    run.take(alloc, when, &given, item.token, item.token)
}

// A name of function-like macros before a `(`, where the condition holds.
fn begin_call<'t, O: Oracle>(
    alloc: Global,
    within: &Formula,
    oracle: &mut O,
    run: &mut Run<'t>,
    when: Formula,
    item: &Item<'t>,
    functions: &[Guarded<Function<'t>>],
) -> Result<(), NoMemory>
    requires { (c : List Bool) → value (has c) (condition_of when) ≡ true → is_single (seen (has c) (entries_of plain_function functions.now)) ≡ true }
    ensures kept { O.admits oracle.new ≡ O.admits oracle.old }
    ensures read { OnOk result ((exact : Bool) (c : List Bool) → IsTrue (value (has c) (O.admits oracle.old)) → IsTrue (value (has c) (condition_of within.now)) → run_at exact (has c) run.new ≡ also (run_at exact (has c) run.old) (under_piece (value (has c) (condition_of when)) (open_piece (record { call = spec.begun (item_at (has c) item.now).token (or_function (seen (has c) (entries_of plain_function functions.now))).params (or_function (seen (has c) (entries_of plain_function functions.now))).body; first = plain_token item.now.token.now } ∷ [])))) }
{
    let possible = may(alloc, oracle, within, &when)?;
    if !possible {
        return Ok(());
    }
    let functions = copied_functions(alloc, functions)?;
    let call = Call::begun(alloc, when, item.try_clone(alloc)?, functions);
    run.push_call(call)
}

// A name that stays, where the condition holds.
fn stay_turn<'t, O: Oracle>(
    alloc: Global,
    within: &Formula,
    oracle: &mut O,
    run: &mut Run<'t>,
    when: Formula,
    item: &Item<'t>,
) -> Result<(), NoMemory>
    ensures kept { O.admits oracle.new ≡ O.admits oracle.old }
    ensures read { OnOk result ((exact : Bool) (c : List Bool) → IsTrue (value (has c) (O.admits oracle.old)) → IsTrue (value (has c) (condition_of within.now)) → run_at exact (has c) run.new ≡ also (run_at exact (has c) run.old) (under_piece (value (has c) (condition_of when)) (items_piece exact (item_at (has c) item.now ∷ [])))) }
{
    let possible = may(alloc, oracle, within, &when)?;
    if !possible {
        return Ok(());
    }
    run.push_item(when, item.try_clone(alloc)?)
}

// Where a name of function-like macros begins a call.
fn when_called<'t>(
    alloc: Global,
    functions: &[Guarded<Function<'t>>],
    rest: &[Guarded<Item<'t>>],
) -> Result<Formula, NoMemory>
    ensures { IfOk result (λ f. (on : ℕ → Bool) → value on (condition_of f) ≡ (some_seen (seen on (entries_of plain_function functions.now)) && spec.opens (items_at on rest.now))) }
{
    if functions.is_empty() {
        return Ok(Formula::False);
    }
    let some = when_some(alloc, functions)?;
    let opens = when_opens(alloc, rest)?;
    both(alloc, some, opens)
}

// Where neither condition holds, nor the third.
fn when_none(
    alloc: Global,
    when: &Formula,
    first: &Formula,
    second: &Formula,
    third: &Formula,
) -> Result<Formula, NoMemory>
    ensures { IfOk result (λ f. (on : ℕ → Bool) → value on (condition_of f) ≡ (((value on (condition_of when.now) && not (value on (condition_of first.now))) && not (value on (condition_of second.now))) && not (value on (condition_of third.now)))) }
{
    let left = without(alloc, when.try_clone(alloc)?, first)?;
    let left = without(alloc, left, second)?;
    without(alloc, left, third)
}

// Where a name is treated in each of the ways but as a feature.
#[derive(Drop)]
struct Ways {
    object: Formula,
    call: Formula,
    stays: Formula,
}

fn ways_of<'t>(
    alloc: Global,
    when: &Formula,
    feature: &Formula,
    objects: &[Guarded<Function<'t>>],
    functions: &[Guarded<Function<'t>>],
    rest: &[Guarded<Item<'t>>],
) -> Result<Ways, NoMemory>
    ensures object { IfOk result (λ ways. (on : ℕ → Bool) → value on (condition_of ways.object) ≡ (value on (condition_of when.now) && some_seen (seen on (entries_of plain_function objects.now)))) }
    ensures call { IfOk result (λ ways. (on : ℕ → Bool) → value on (condition_of ways.call) ≡ (value on (condition_of when.now) && (some_seen (seen on (entries_of plain_function functions.now)) && spec.opens (items_at on rest.now)))) }
    ensures stays { IfOk result (λ ways. (on : ℕ → Bool) → value on (condition_of ways.stays) ≡ (((value on (condition_of when.now) && not (value on (condition_of feature.now))) && not (some_seen (seen on (entries_of plain_function objects.now)))) && not (some_seen (seen on (entries_of plain_function functions.now)) && spec.opens (items_at on rest.now)))) }
{
    let some = when_some(alloc, objects)?;
    let calls = when_called(alloc, functions, rest)?;
    let stays = when_none(alloc, when, feature, &some, &calls)?;
    Ok(Ways {
        object: inner(alloc, when, &some)?,
        call: inner(alloc, when, &calls)?,
        stays,
    })
}

// Object-like macros as functions without parameters.
fn as_functions<'t>(
    alloc: Global,
    objects: &[Guarded<&'t [Token]>],
) -> Result<Vec<Guarded<Function<'t>>>, NoMemory>
    ensures { IfOk result (λ functions. (on : ℕ → Bool) → seen on (entries_of plain_function functions.items) ≡ map without_params (seen on (entries_of (λ b. map plain_token b.now) objects.now))) }
{
    let mut functions = Vec::with_capacity(alloc, objects.len())?;
    for object in objects {
        let what = Function {
            params: &[],
            body: object.what,
        };
        functions.push(Guarded {
            when: object.when.try_clone(alloc)?,
            what,
        })?;
    }
    Ok(functions)
}

// An item that is a name and isn't active.
#[cycle(lists)]
fn name_turn<'t, O: Oracle>(
    level: &Level<'t, '_>,
    oracle: &mut O,
    run: &mut Run<'t>,
    when: &Formula,
    item: &Item<'t>,
    meanings: &Meanings<'t>,
    rest: &[Guarded<Item<'t>>],
) -> Result<(), NoMemory>
    requires { (c : List Bool) → Means (has c) (macros_in c level.now item.now.token.now.text.items) meanings.now }
    ensures kept { O.admits oracle.new ≡ O.admits oracle.old }
    ensures read { OnOk result ((exact : Bool) (c : List Bool) → IsTrue (value (has c) (O.admits oracle.old)) → IsTrue (is_within c level.now) → run_at exact (has c) run.new ≡ also (run_at exact (has c) run.old) (under_piece (value (has c) (condition_of when.now)) (outside_piece exact (macros_in c level.now) (deeper_in c level.now) (active_in level.now) (item_at (has c) item.now) (plain_token item.now.token.now) (spec.treatment (item_at (has c) item.now) false (spec.opens (items_at (has c) rest.now)) (macros_in c level.now item.now.token.now.text.items))))) }
{
    let alloc = level.alloc;
    feature_turn(alloc, level.feature, run, when, &meanings.feature, item)?;
    let objects = as_functions(alloc, meanings.objects.as_slice())?;
    let ways = ways_of(
        alloc,
        when,
        &meanings.feature,
        objects.as_slice(),
        meanings.functions.as_slice(),
        rest,
    )?;
    object_turn(level, oracle, run, &ways.object, item, objects.as_slice())?;
    begin_call(
        alloc,
        level.within,
        oracle,
        run,
        ways.call,
        item,
        meanings.functions.as_slice(),
    )?;
    stay_turn(alloc, level.within, oracle, run, ways.stays, item)
}

// A name is kept for good, where both conditions hold.
fn keep<'t>(
    alloc: Global,
    run: &mut Run<'t>,
    when: &Formula,
    some: &Formula,
    item: &Item<'t>,
) -> Result<(), NoMemory>
    ensures { OnOk result ((exact : Bool) (on : ℕ → Bool) → run_at exact on run.new ≡ also (run_at exact on run.old) (under_piece (value on (condition_of when.now) && value on (condition_of some.now)) (items_piece exact (record (item_at on item.now) { kept = true } ∷ [])))) }
{
    let here = inner(alloc, when, some)?;
    run.push_item(here, item.kept(alloc)?)
}

// A name that is active stays, and is kept for good where it is a macro's.
fn active_turn<'t>(
    alloc: Global,
    run: &mut Run<'t>,
    when: Formula,
    item: &Item<'t>,
    meanings: &Meanings<'t>,
) -> Result<(), NoMemory>
    ensures { OnOk result ((exact : Bool) (on : ℕ → Bool) (meaning : Option spec.Meaning) → Means on meaning meanings.now → run_at exact on run.new ≡ also (run_at exact on run.old) (under_piece (value on (condition_of when)) (items_piece exact (kept_item (is_some meaning) (item_at on item.now) ∷ [])))) }
{
    let some = meanings.when_any(alloc)?;
    keep(alloc, run, &when, &some, item)?;
    let elsewhere = without(alloc, when, &some)?;
    run.push_item(elsewhere, item.try_clone(alloc)?)
}

// Reads an item where no call is open, by the items behind it.
#[cycle(lists)]
fn outside_turn<'t, O: Oracle>(
    level: &Level<'t, '_>,
    oracle: &mut O,
    run: &mut Run<'t>,
    when: Formula,
    item: &Item<'t>,
    rest: &[Guarded<Item<'t>>],
) -> Result<(), NoMemory>
    ensures kept { O.admits oracle.new ≡ O.admits oracle.old }
    ensures read { OnOk result ((exact : Bool) (c : List Bool) → IsTrue (value (has c) (O.admits oracle.old)) → IsTrue (is_within c level.now) → run_at exact (has c) run.new ≡ also (run_at exact (has c) run.old) (under_piece (value (has c) (condition_of when)) (outside_piece exact (macros_in c level.now) (deeper_in c level.now) (active_in level.now) (item_at (has c) item.now) (plain_token item.now.token.now) (spec.treatment_of (macros_in c level.now) (active_in level.now) (item_at (has c) item.now) (items_at (has c) rest.now))))) }
{
    let alloc = level.alloc;
    if is_never(&when) {
        return Ok(());
    }
    if !item.is_name() {
        return run.push_item(when, item.try_clone(alloc)?);
    }
    let meanings = meanings_of(alloc, &level.macros, item.token.text.as_slice())?;
    if meanings.is_nothing() {
        return run.push_item(when, item.try_clone(alloc)?);
    }
    if is_active(level.active, item) {
        return active_turn(alloc, run, when, item, &meanings);
    }
    name_turn(level, oracle, run, &when, item, &meanings, rest)
}

// Reads an item, by the items behind it.
#[cycle(lists)]
fn turn<'t, O: Oracle>(
    level: &Level<'t, '_>,
    oracle: &mut O,
    run: &mut Run<'t>,
    entry: &Guarded<Item<'t>>,
    rest: &[Guarded<Item<'t>>],
) -> Result<(), NoMemory>
    ensures kept { O.admits oracle.new ≡ O.admits oracle.old }
    ensures read { OnOk result ((exact : Bool) (c : List Bool) (becomes : Option (List spec.Item)) → IsTrue (value (has c) (O.admits oracle.old)) → IsTrue (is_within c level.now) → (exact ≡ true → IsOwn entry.now.what) → ListBecomes exact (macros_in c level.now) (deeper_in c level.now) (active_in level.now) (run_at exact (has c) run.old) (if value (has c) (condition_of entry.now.when) then item_at (has c) entry.now.what ∷ items_at (has c) rest.now else items_at (has c) rest.now) becomes → ListBecomes exact (macros_in c level.now) (deeper_in c level.now) (active_in level.now) (run_at exact (has c) run.new) (items_at (has c) rest.now) becomes) }
{
    let outside = inside_turn(level, oracle, run, entry)?;
    outside_turn(level, oracle, run, outside, &entry.what, rest)
}

/// What a list becomes, seen in each configuration that the oracle admits and that is looked at: what the recursion over lists
/// gives there, but for sites and places; exactly that, where each item is its own token in each configuration.
#[cycle(lists)]
pub fn replaced_list<'t, O: Oracle>(
    level: &Level<'t, '_>,
    oracle: &mut O,
    items: &[Guarded<Item<'t>>],
) -> Result<Finished<'t>, NoMemory>
    ensures kept { O.admits oracle.new ≡ O.admits oracle.old }
    ensures given { IfOk result (λ f. (exact : Bool) (c : List Bool) → IsTrue (value (has c) (O.admits oracle.old)) → IsTrue (is_within c level.now) → (exact ≡ true → AreOwn items.now) → given_at exact (has c) f ≡ look exact (spec.outside (macros_in c level.now) (deeper_in c level.now) (active_in level.now) (items_at (has c) items.now))) }
{
    let mut run = Run::begun(level.alloc);
    for (i, entry) in items.iter().enumerate() {
        let (_, rest) = items.split_at(i + 1);
        turn(level, oracle, &mut run, entry, rest)?;
    }
    run.finished(level.alloc)
}
