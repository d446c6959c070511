// The values of the variables that an action names.
ghost use Rattle.std.specs.Prelude.{◌≡◌, ◌∷◌, ◌++◌, [], if◌then◌else◌, map, IfOk};
ghost use Rattle.pgo_base.specs.View.{named_data};
ghost use Rattle.pgo_show_text.specs.Facts as facts;
ghost use Rattle.pgo_show_text.specs.Shown as spec;

use crate::texts::value_text;
use pgo_base::expr::Sub;
use pgo_base::text::Text;
use pgo_base::value::Value;
use pgo_lines::line::Lines;
use pgo_lines::line::Piece::{Bytes, Name};
use pgo_operands::mentions::mentions;
use std::alloc::{AllocError, Global};

/// Whether the value of this variable is shown with an action.
fn is_shown(alloc: Global, name: &Text, action: &Sub) -> Result<bool, AllocError>
    ensures { IfOk result (λ b. b ≡ facts.is_shown name.now action.now) }
{
    if name.is_bytes(b"pc") {
        return Ok(false);
    }
    mentions(alloc, name.as_bytes(), action.get())
}

/// The line of a variable.
fn push_value(lines: &mut Lines, alloc: Global, variable: &(Text, Value)) -> Result<(), AllocError>
    ensures { IfOk result (λ _. lines.new ≡ lines.old ++ spec.value_line (named_data variable.now) ∷ []) }
{
    let text = value_text(alloc, &variable.1)?;
    lines.push(
        alloc,
        &[
            Bytes(b"    "),
            Name(&variable.0),
            Bytes(b" = "),
            Bytes(text.as_bytes()),
        ],
    )
}

/// The line of a variable, where an action names it.
fn push_shown(
    lines: &mut Lines,
    alloc: Global,
    action: &Sub,
    variable: &(Text, Value),
) -> Result<(), AllocError>
    ensures { IfOk result (λ _. lines.new ≡ (if facts.is_shown (named_data variable.now).0 action.now then lines.old ++ spec.value_line (named_data variable.now) ∷ [] else lines.old)) }
{
    if is_shown(alloc, &variable.0, action)? {
        return push_value(lines, alloc, variable);
    }
    Ok(())
}

/// The lines of those of these variables that an action names.
#[tactic(auto, unfolding(crate::specs::Shown::with_values))]
pub fn push_values(
    lines: &mut Lines,
    alloc: Global,
    action: &Sub,
    variables: &[(Text, Value)],
) -> Result<(), AllocError>
    ensures { IfOk result (λ _. lines.new ≡ spec.with_values action.now (map named_data variables.now) lines.old) }
{
    for variable in variables {
        push_shown(lines, alloc, action, variable)?;
    }
    Ok(())
}
