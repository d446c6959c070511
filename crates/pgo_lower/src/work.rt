// What is still to be done of a section.
use pgo_code::instruction::Evaluation;
use pgo_effects::piece::Effect;
use pgo_effects::todo::Todo;
use pgo_walk::stack::Stack;

/// What is to be done next. Instructions are made from the last one to the first, so that what a jump passes over is there when it is
/// made.
#[derive(Drop)]
pub enum Task<'a> {
    /// this code
    Do(Todo<'a>),
    /// these effects
    Effects(Vec<Effect<'a>>),
    /// of an `if` whose second branch has just been made: the condition, the first branch, and how many instructions there were
    /// before the second one was made
    Else(Evaluation, Todo<'a>, usize),
    /// of an `if` whose first branch has just been made, too: the condition, and how many instructions there were before that
    Then(Evaluation, usize),
    /// of an `either` of which an arm has just been made: the arms before it; how many instructions there are from the start of each
    /// arm behind it; and how many there were before any arm was made
    Arms(Vec<Todo<'a>>, Stack<usize>, usize),
}
