// How large an expression is: how many expressions stand in it, and how high it is.
//
// Both are taken up to a limit, so no sum is formed that might not fit. Both walk over the operands of an expression
// (`pgo_operands`), so each has one loop and one call, whatever the number of forms.
#![tactic(auto)]

pub mod heights;
pub mod nodes;
pub mod tuples;
