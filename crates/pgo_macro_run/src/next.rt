// What comes next in a statement.
use pgo_base::value::Value;
use pgo_syntax::statement::{Block, Stmt};

/// What comes next in a statement.
#[derive(Drop)]
pub enum Next<'s> {
    /// nothing, and the block goes on
    Goes,
    /// the block ends with this value
    Yields(Value),
    /// this statement
    Inside(&'s Stmt),
    /// this statement, and then a jump, which no block has
    Looped(&'s Stmt),
    /// these statements
    Rows(&'s Block),
}
