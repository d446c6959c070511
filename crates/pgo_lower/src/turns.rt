// The instructions of a section, made from the last one to the first: one task after the other, until none is left.
ghost use Rattle.std.specs.Prelude.{◌≡◌, ℕ, ◌-◌, [], ◌∷◌, ◌++◌, List, length, map, IfOk};
ghost use Rattle.pgo_effects.specs.Pieces.{last_code, piece_code};
ghost use Rattle.pgo_effects.specs.SettingView.{setting_view};
ghost use Rattle.pgo_effects.specs.Todos.{code_of, codes_of};
ghost use Rattle.pgo_code.specs.See.{evaluation_view};
ghost use Rattle.pgo_code.specs.Steps.{Branch, Jump, Step};
ghost use Rattle.pgo_lower.specs.Lowered.{Tables, choice, lowered};
ghost use Rattle.pgo_lower.specs.Slots.{tables_of};
ghost use Rattle.pgo_lower.specs.Made.{step_here, steps_here};
ghost use Rattle.pgo_lower.specs.Heads.{unbound_by};
ghost use Rattle.pgo_lower.specs.Work.{chosen_before, task_before, tasks_before};
ghost use Rattle.pgo_meaning.specs.Statements.{Setting as Meant};
ghost use Rattle.pgo_section_list.specs.Sections.{in_sequence};
ghost use Rattle.pgo_sections.specs.Code.{If, in_turn};
ghost use Rattle.pgo_base.specs.ExprView.{tree};
ghost use Rattle.pgo_lower.specs.declared.work.Task.TheVariants as tasks_spec;

use crate::names::Names;
use crate::reads::evaluation;
use crate::steps::{
    add_assert, add_await, add_change, add_effects, add_fail, add_print, add_unbinds, count,
};
use crate::work::Task;
use pgo_base::expr::Expr;
use pgo_base::results::both;
use pgo_code::instruction::{Evaluation, Instruction};
use pgo_effects::piece::{Effect, Last, Piece};
use pgo_effects::setting::Setting;
use pgo_effects::todo::Todo;
use pgo_effects::unfold::unfold;
use pgo_walk::stack::Stack;
use std::alloc::{AllocError, Global};

/// These are to be done, the last one first.
pub fn push_all<'a>(tasks: &mut Stack<Task<'a>>, todos: Vec<Todo<'a>>) -> Result<(), AllocError>
    ensures { IfOk result (λ _. (s : Meant) (t : Tables) (is : List Step) → tasks_before s t tasks.new is ≡ tasks_before s t tasks.old (lowered t (in_turn (codes_of s todos.entry.items)) ++ is)) }
{
    for todo in todos {
        tasks.push(Task::Do(todo))?;
    }
    Ok(())
}

/// From the start of all, so many instructions are before the start of each.
pub fn offsets(alloc: Global, lengths: Stack<usize>, all: usize) -> Result<Vec<usize>, AllocError>
    ensures { IfOk result (λ v. v.items ≡ map (λ k. all - k) lengths) }
{
    let mut left = lengths;
    let mut list = Vec::new(alloc);
    while let Some(k) = left.pop() {
        list.push(all.saturating_sub(k))?;
    }
    Ok(list)
}

/// A choice among so many arms.
pub fn choice_of<'a>(arms: Vec<usize>) -> Instruction<'a>
    ensures { step_here result ≡ choice arms.items }
{
    if arms.is_empty() {
        Instruction::Fail
    } else {
        Instruction::Choose(arms)
    }
}

/// The arm before those that are made; or the choice, where there is no arm before them.
pub fn next_arm<'a>(
    alloc: Global,
    tasks: &mut Stack<Task<'a>>,
    made: &mut Stack<Instruction<'a>>,
    arms: Vec<Todo<'a>>,
    lengths: Stack<usize>,
    behind: usize,
) -> Result<(), AllocError>
    ensures { IfOk result (λ _. (s : Meant) (t : Tables) → tasks_before s t tasks.new (steps_here made.new) ≡ tasks_before s t tasks.old (chosen_before t (codes_of s arms.entry.items) lengths behind (steps_here made.old))) }
{
    let mut arms = arms;
    let here = count(made);
    match arms.pop() {
        None => {
            let offsets = offsets(alloc, lengths, here)?;
            made.push(choice_of(offsets))?;
            Ok(())
        }
        Some(todo) => {
            push_two(tasks, Task::Arms(arms, lengths, behind), Task::Do(todo))?;
            made.push(Instruction::Jump(here.saturating_sub(behind)))?;
            Ok(())
        }
    }
}

/// This is to be done, and before it that.
pub fn push_two<'a>(
    tasks: &mut Stack<Task<'a>>,
    first: Task<'a>,
    second: Task<'a>,
) -> Result<(), AllocError>
    ensures { IfOk result (λ _. tasks.new ≡ second.entry ∷ first.entry ∷ tasks.old) }
{
    let (_, second) = both(tasks.push(first), Ok(second))?;
    tasks.push(second)
}

/// An `if`, of which the second branch is made first.
pub fn begin_if<'a>(
    alloc: Global,
    names: &Names<'_, '_, 'a>,
    tasks: &mut Stack<Task<'a>>,
    made: &Stack<Instruction<'a>>,
    e: Expr,
    first: Todo<'a>,
    second: Todo<'a>,
) -> Result<(), AllocError>
    ensures { IfOk result (λ _. tasks_before (setting_view names.now.setting) (tables_of names.now) tasks.new (steps_here made.now) ≡ tasks_before (setting_view names.now.setting) (tables_of names.now) tasks.old (lowered (tables_of names.now) (If (tree e) (code_of (setting_view names.now.setting) first.entry) (code_of (setting_view names.now.setting) second.entry)) ++ steps_here made.now)) }
{
    let before = count(made);
    let condition = evaluation(alloc, names.slots, e);
    let (condition, (first, second)) = both(condition, Ok((first, second)))?;
    push_two(
        tasks,
        Task::Else(condition, first, before),
        Task::Do(second),
    )?;
    Ok(())
}

/// Of an `if` whose second branch is made: its end, and then the first branch.
pub fn end_second<'a>(
    tasks: &mut Stack<Task<'a>>,
    made: &mut Stack<Instruction<'a>>,
    condition: Evaluation,
    first: Todo<'a>,
    before: usize,
) -> Result<(), AllocError>
    ensures { IfOk result (λ _. (s : Meant) (t : Tables) → tasks_before s t tasks.new (steps_here made.new) ≡ tasks_before s t tasks.old (task_before s t (tasks_spec.Else condition first.entry before) (steps_here made.old))) }
{
    let here = count(made);
    push_two(tasks, Task::Then(condition, here), Task::Do(first))?;
    made.push(Instruction::Jump(here.saturating_sub(before)))?;
    Ok(())
}

/// Of an `if` both of whose branches are made: its start.
pub fn end_if<'a>(
    made: &mut Stack<Instruction<'a>>,
    condition: Evaluation,
    before: usize,
) -> Result<(), AllocError>
    ensures { IfOk result (λ _. steps_here made.new ≡ Branch (evaluation_view condition) (length (steps_here made.old) - before) ∷ steps_here made.old) }
{
    let otherwise = count(made).saturating_sub(before);
    made.push(Instruction::Branch {
        condition,
        otherwise,
    })?;
    Ok(())
}

/// The items, the newest first.
pub fn in_order<'a>(
    alloc: Global,
    made: Stack<Instruction<'a>>,
) -> Result<Vec<Instruction<'a>>, AllocError>
    ensures { IfOk result (λ v. v.items ≡ made.entry) }
{
    let mut left = made;
    let mut list = Vec::new(alloc);
    while let Some(instruction) = left.pop() {
        list.push(instruction)?;
    }
    Ok(list)
}

/// What comes last.
fn do_last<'a>(
    alloc: Global,
    names: &Names<'_, '_, 'a>,
    tasks: &mut Stack<Task<'a>>,
    made: &mut Stack<Instruction<'a>>,
    last: Last<'a>,
) -> Result<(), AllocError>
    ensures { IfOk result (λ _. tasks_before (setting_view names.now.setting) (tables_of names.now) tasks.new (steps_here made.new) ≡ tasks_before (setting_view names.now.setting) (tables_of names.now) tasks.old (lowered (tables_of names.now) (last_code (setting_view names.now.setting) last.entry) ++ steps_here made.old)) }
{
    match last {
        Last::Empty => Ok(()),
        Last::Skip => Ok(()),
        Last::Change(change) => add_change(alloc, names, change, made),
        Last::Await(e) => add_await(alloc, names, e, made),
        Last::Assert(e) => add_assert(alloc, names, e, made),
        Last::Print(e) => add_print(alloc, names, e, made),
        Last::Yield(e) => add_fail(e, made),
        Last::Goto(label) => made.push(Instruction::End(label)),
        Last::If(e, first, second) => { begin_if(alloc, names, tasks, &*made, e, first, second) }
        Last::Either(arms) => {
            let behind = count(made);
            next_arm(alloc, tasks, made, arms, Stack::new(alloc), behind)
        }
        Last::Then(first, second) => push_two(tasks, Task::Do(first), Task::Do(second)),
        Last::Row(todos) => push_all(tasks, todos),
        Last::Code(todo) => tasks.push(Task::Do(todo)),
    }
}

/// Of one level of code: its end, and then its effects, which come before all that is made until then.
fn begin_piece<'a>(
    tasks: &mut Stack<Task<'a>>,
    made: &mut Stack<Instruction<'a>>,
    effects: Vec<Effect<'a>>,
) -> Result<(), AllocError>
    ensures tasks { IfOk result (λ _. tasks.new ≡ tasks_spec.Effects effects.entry ∷ tasks.old) }
    ensures made { IfOk result (λ _. steps_here made.new ≡ unbound_by effects.entry.items (steps_here made.old)) }
{
    add_unbinds(effects.as_slice(), made)?;
    tasks.push(Task::Effects(effects))
}

/// One level of code.
fn level<'a>(
    alloc: Global,
    setting: Setting<'a, '_>,
    todo: Todo<'a>,
) -> Result<Piece<'a>, AllocError>
    ensures { IfOk result (λ p. piece_code (setting_view setting.entry) p ≡ code_of (setting_view setting.entry) todo.entry) }
{
    unfold(alloc, setting, &todo)
}

/// Code of which one level is looked at.
fn do_code<'a>(
    alloc: Global,
    names: &Names<'_, '_, 'a>,
    tasks: &mut Stack<Task<'a>>,
    made: &mut Stack<Instruction<'a>>,
    todo: Todo<'a>,
) -> Result<(), AllocError>
    ensures { IfOk result (λ _. tasks_before (setting_view names.now.setting) (tables_of names.now) tasks.new (steps_here made.new) ≡ tasks_before (setting_view names.now.setting) (tables_of names.now) tasks.old (lowered (tables_of names.now) (code_of (setting_view names.now.setting) todo.entry) ++ steps_here made.old)) }
{
    let Piece { effects, last } = level(alloc, names.setting, todo)?;
    let begun = begin_piece(tasks, made, effects);
    let (last, _) = both(Ok(last), begun)?;
    do_last(alloc, names, tasks, made, last)
}

/// The arm before the one that has just been made.
fn end_arm<'a>(
    alloc: Global,
    tasks: &mut Stack<Task<'a>>,
    made: &mut Stack<Instruction<'a>>,
    arms: Vec<Todo<'a>>,
    lengths: Stack<usize>,
    behind: usize,
) -> Result<(), AllocError>
    ensures { IfOk result (λ _. (s : Meant) (t : Tables) → tasks_before s t tasks.new (steps_here made.new) ≡ tasks_before s t tasks.old (task_before s t (tasks_spec.Arms arms.entry lengths behind) (steps_here made.old))) }
{
    let mut lengths = lengths;
    lengths.push(count(made))?;
    next_arm(alloc, tasks, made, arms, lengths, behind)
}

/// A task.
fn turn<'a>(
    alloc: Global,
    names: &Names<'_, '_, 'a>,
    tasks: &mut Stack<Task<'a>>,
    made: &mut Stack<Instruction<'a>>,
    task: Task<'a>,
) -> Result<(), AllocError>
    ensures { IfOk result (λ _. tasks_before (setting_view names.now.setting) (tables_of names.now) tasks.new (steps_here made.new) ≡ tasks_before (setting_view names.now.setting) (tables_of names.now) tasks.old (task_before (setting_view names.now.setting) (tables_of names.now) task.entry (steps_here made.old))) }
{
    match task {
        Task::Do(todo) => do_code(alloc, names, tasks, made, todo),
        Task::Effects(effects) => add_effects(alloc, names, effects, made),
        Task::Else(condition, first, before) => {
            end_second(tasks, made, condition, first, before)
        }
        Task::Then(condition, before) => end_if(made, condition, before),
        Task::Arms(arms, lengths, behind) => { end_arm(alloc, tasks, made, arms, lengths, behind) }
    }
}

/// Tasks until none is left; one is taken off `left` for each, and one at the end.
fn run<'a>(
    alloc: Global,
    names: &Names<'_, '_, 'a>,
    tasks: &mut Stack<Task<'a>>,
    made: &mut Stack<Instruction<'a>>,
    left: &mut u64,
) -> Result<(), AllocError>
    ensures { IfOk result (λ _. steps_here made.new ≡ tasks_before (setting_view names.now.setting) (tables_of names.now) tasks.old (steps_here made.old)) }
{
    while *left > 0 {
        *left -= 1;
        match tasks.pop() {
            None => return Ok(()),
            Some(task) => turn(alloc, names, tasks, made, task)?,
        }
    }
    Err(AllocError)
}

/// These one after the other, and then the last, are to be done.
fn push_section<'a>(
    tasks: &mut Stack<Task<'a>>,
    todos: Vec<Todo<'a>>,
    end: Todo<'a>,
) -> Result<(), AllocError>
    ensures { IfOk result (λ _. (s : Meant) (t : Tables) → tasks_before s t tasks.new [] ≡ tasks_before s t tasks.old (lowered t (in_sequence (codes_of s todos.entry.items) (code_of s end.entry)))) }
{
    let (_, end) = both(push_all(tasks, todos), Ok(end))?;
    tasks.push(Task::Do(end))
}

/// The instructions of a section: these one after the other, and then the last. One is taken off `left` for each task, and one at the
/// end.
///
/// Err where there is no memory, or `left` isn't enough.
pub(crate) fn instructions<'a>(
    alloc: Global,
    names: &Names<'_, '_, 'a>,
    todos: Vec<Todo<'a>>,
    end: Todo<'a>,
    left: &mut u64,
) -> Result<Vec<Instruction<'a>>, AllocError>
    ensures { IfOk result (λ v. steps_here v.items ≡ lowered (tables_of names.now) (in_sequence (codes_of (setting_view names.now.setting) todos.entry.items) (code_of (setting_view names.now.setting) end.entry))) }
{
    let mut tasks = Stack::new(alloc);
    push_section(&mut tasks, todos, end)?;
    let mut made = Stack::new(alloc);
    run(alloc, names, &mut tasks, &mut made, left)?;
    in_order(alloc, made)
}
