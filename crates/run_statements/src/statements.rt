//! Statements (6.8).
ghost use Rattle.std.specs.Prelude.{IfOk, Some};
ghost use Rattle.core_meaning.specs.Plain.{plain_expression, plain_statement, plain_items};
ghost use Rattle.core_meaning.specs.Program as program_form;
ghost use Rattle.interp_actions.specs.Forms.{plain_turns, plain_ending};
ghost use Rattle.interp_actions.specs.Actions as plain;
ghost use Rattle.run_machine.specs.Machines.{Does, ComesTo, given_outcome};

use cond_formula::NoMemory;
use core_cells::Value;
use core_meaning::{Expression, Item, Statement};
use interp_actions::{Action, Ending, Flow, Operand, Turns, begin_full, push, push_two};
use run_machine::Machine;

/// Begins a statement (6.8).
#[tactic(auto, using(core_meaning::specs::PlainLaws::statement_kinds))]
pub fn begin_statement<'a>(
    machine: &mut Machine<'a>,
    statement: &'a Statement,
) -> Result<Flow, NoMemory>
    ensures { IfOk result (λ flow. Does flow (plain.statement_action (plain_statement statement.now)) machine.old machine.new) }
{
    match statement {
        Statement::Block(items) => put_items(machine, items),
        Statement::Expression(expression) => begin_evaluate(machine, expression),
        Statement::If(condition, first, second) => begin_if(machine, condition, first, second),
        Statement::Loop {
            asks_first,
            condition,
            step,
            body,
        } => begin_loop(machine, *asks_first, condition, step, body),
        Statement::Break => put_ending(machine, Ending::Breaks),
        Statement::Continue => put_ending(machine, Ending::Continues),
        Statement::Return => put_ending(machine, Ending::Returns(Value::Nothing)),
        Statement::ReturnValue(value) => begin_return_value(machine, value),
    }
}

/// The items of a block come next.
pub fn put_items<'a>(machine: &mut Machine<'a>, items: &'a [Item]) -> Result<Flow, NoMemory>
    ensures { IfOk result (λ flow. Does flow (plain.items_action (plain_items items.now)) machine.old machine.new) }
{
    push(&mut machine.control.actions, Action::Items(items))?;
    Ok(Flow::Goes)
}

fn begin_if<'a>(
    machine: &mut Machine<'a>,
    condition: &'a Expression,
    first: &'a Statement,
    second: &'a Statement,
) -> Result<Flow, NoMemory>
    ensures { IfOk result (λ flow. Does flow (plain.statement_action (program_form.selection (plain_expression condition.now) (plain_statement first.now) (plain_statement second.now))) machine.old machine.new) }
{
    push(&mut machine.control.actions, Action::If(first, second))?;
    begin_full(
        &mut machine.control,
        machine.alloc,
        &mut machine.temporaries,
    )?;
    push_two(
        &mut machine.control.actions,
        Action::Expression(condition),
        Action::Test,
    )?;
    Ok(Flow::Goes)
}

fn begin_return_value<'a>(
    machine: &mut Machine<'a>,
    value: &'a Expression,
) -> Result<Flow, NoMemory>
    ensures { IfOk result (λ flow. Does flow (plain.statement_action (program_form.return_value (plain_expression value.now))) machine.old machine.new) }
{
    push(&mut machine.control.actions, Action::ReturnValue)?;
    begin_full(
        &mut machine.control,
        machine.alloc,
        &mut machine.temporaries,
    )?;
    push_two(
        &mut machine.control.actions,
        Action::Expression(value),
        Action::Used,
    )?;
    Ok(Flow::Goes)
}

fn begin_evaluate<'a>(
    machine: &mut Machine<'a>,
    expression: &'a Expression,
) -> Result<Flow, NoMemory>
    ensures { IfOk result (λ flow. Does flow (plain.statement_action (program_form.evaluate (plain_expression expression.now))) machine.old machine.new) }
{
    push(&mut machine.control.actions, Action::Falls)?;
    begin_full(
        &mut machine.control,
        machine.alloc,
        &mut machine.temporaries,
    )?;
    push(&mut machine.control.actions, Action::Expression(expression))?;
    Ok(Flow::Goes)
}

/// How a statement ended is on top.
pub fn put_ending<'a>(machine: &mut Machine<'a>, ending: Ending<'a>) -> Result<Flow, NoMemory>
    ensures { IfOk result (λ flow. ComesTo flow (given_outcome (Some (plain.ending_operand (plain_ending ending.entry))) machine.old) machine.new) }
{
    push(&mut machine.control.operands, Operand::Ending(ending))?;
    Ok(Flow::Goes)
}

// ---- loops

fn begin_loop<'a>(
    machine: &mut Machine<'a>,
    asks_first: bool,
    condition: &'a Expression,
    step: &'a Expression,
    body: &'a Statement,
) -> Result<Flow, NoMemory>
    ensures { IfOk result (λ flow. Does flow (plain.statement_action (program_form.loop asks_first (plain_expression condition.now) (plain_expression step.now) (plain_statement body.now))) machine.old machine.new) }
{
    let turns = Turns {
        condition,
        step,
        body,
        bound_behind: machine.frame.bound,
    };
    if asks_first {
        let flow = asks(machine, turns)?;
        Ok(flow)
    } else {
        let begun = begin_turn(machine, turns)?;
        Ok(begun)
    }
}

fn asks<'a>(machine: &mut Machine<'a>, turns: Turns<'a>) -> Result<Flow, NoMemory>
    ensures { IfOk result (λ flow. Does flow (plain.asking_action (plain_turns turns.entry)) machine.old machine.new) }
{
    push(&mut machine.control.actions, Action::Turn(turns))?;
    begin_full(
        &mut machine.control,
        machine.alloc,
        &mut machine.temporaries,
    )?;
    push_two(
        &mut machine.control.actions,
        Action::Expression(turns.condition),
        Action::Test,
    )?;
    Ok(Flow::Goes)
}

/// The step of a loop is done, and its condition comes next (6.8.5.3).
pub fn asks_again<'a>(machine: &mut Machine<'a>, turns: Turns<'a>) -> Result<Flow, NoMemory>
    ensures { IfOk result (λ flow. Does flow (plain.asks_action (plain_turns turns.entry)) machine.old machine.new) }
{
    match machine.control.take_value() {
        None => Ok(Flow::Fails),
        Some(value) => asks_past(machine, value, turns),
    }
}

/// The value isn't kept.
fn asks_past<'a>(
    machine: &mut Machine<'a>,
    _value: Value<'a>,
    turns: Turns<'a>,
) -> Result<Flow, NoMemory>
    ensures { IfOk result (λ flow. Does flow (plain.asking_action (plain_turns turns.entry)) machine.old machine.new) }
{
    asks(machine, turns)
}

/// What follows the body of a turn, and then the next test of the condition.
fn begin_step<'a>(machine: &mut Machine<'a>, turns: Turns<'a>) -> Result<Flow, NoMemory>
    ensures { IfOk result (λ flow. Does flow (plain.step_action (plain_turns turns.entry)) machine.old machine.new) }
{
    push(&mut machine.control.actions, Action::Asks(turns))?;
    begin_full(
        &mut machine.control,
        machine.alloc,
        &mut machine.temporaries,
    )?;
    push(&mut machine.control.actions, Action::Expression(turns.step))?;
    Ok(Flow::Goes)
}

/// The condition of a loop is on top: a turn begins where it holds, else the loop is left (6.8.5).
pub fn turn<'a>(machine: &mut Machine<'a>, turns: Turns<'a>) -> Result<Flow, NoMemory>
    ensures { IfOk result (λ flow. Does flow (plain.turn_action (plain_turns turns.entry)) machine.old machine.new) }
{
    match machine.control.take_truth() {
        None => Ok(Flow::Fails),
        Some(true) => begin_turn(machine, turns),
        Some(false) => leave_loop(machine, turns, Ending::Falls),
    }
}

fn begin_turn<'a>(machine: &mut Machine<'a>, turns: Turns<'a>) -> Result<Flow, NoMemory>
    ensures { IfOk result (λ flow. Does flow (plain.job_action (plain_turns turns.entry)) machine.old machine.new) }
{
    if machine.frame.bound == 0 {
        return Ok(Flow::Stops);
    }
    machine.frame.bound -= 1;
    push_two(
        &mut machine.control.actions,
        Action::Statement(turns.body),
        Action::AfterTurn(turns),
    )?;
    Ok(Flow::Goes)
}

/// The body of a turn ended: the loop takes its step, or is left (6.8.6.2, 6.8.6.3).
pub fn after_turn<'a>(machine: &mut Machine<'a>, turns: Turns<'a>) -> Result<Flow, NoMemory>
    ensures { IfOk result (λ flow. Does flow (plain.after_turn_action (plain_turns turns.entry)) machine.old machine.new) }
{
    match machine.control.take_ending() {
        None => Ok(Flow::Fails),
        Some(Ending::Falls) => begin_step(machine, turns),
        Some(Ending::Continues) => begin_step(machine, turns),
        Some(Ending::Breaks) => leave_loop(machine, turns, Ending::Falls),
        Some(Ending::Returns(value)) => leave_loop(machine, turns, Ending::Returns(value)),
    }
}

/// What follows the loop has the bound that the loop began with.
fn leave_loop<'a>(
    machine: &mut Machine<'a>,
    turns: Turns<'a>,
    ending: Ending<'a>,
) -> Result<Flow, NoMemory>
    ensures { IfOk result (λ flow. Does flow (plain.leave_action (plain_turns turns.entry) (plain_ending ending.entry)) machine.old machine.new) }
{
    machine.frame.bound = turns.bound_behind;
    push(&mut machine.control.operands, Operand::Ending(ending))?;
    Ok(Flow::Goes)
}
