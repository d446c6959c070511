// What a turn gives.
use crate::frames::State;
use pgo_base::expr::Sub;
use pgo_base::text::Text;

/// A statement behind which the path goes on.
#[derive(Drop)]
pub enum Move {
    /// `with (x = e)`
    With(Text, Sub),
    /// `with (x \in e)`
    In(Text, Sub),
    /// `skip`, or a macro's call
    Skip,
    /// `await e`
    Await(Sub),
    /// `assert e`
    Assert(Sub),
    /// `print e`
    Print(Sub),
}

/// What a turn gives of the expansion.
#[derive(Drop)]
pub enum Event<'a, 'i> {
    /// nothing
    Quiet,
    /// a statement, behind which the state goes on
    Step(Move),
    /// a test: where it is TRUE the state goes on, and else this one does
    If(Sub, State<'a, 'i>),
    /// `either` with these arms; the state goes on no further
    Either(Vec<State<'a, 'i>>),
    /// The changes of an end, and the label that comes next; the state goes on no further.
    End(Vec<(Text, Text)>, Text),
}
