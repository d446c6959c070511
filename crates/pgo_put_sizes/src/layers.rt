// What stands for a name within the arguments of the macros around it.
ghost use Rattle.std.specs.Prelude.{◌≡◌, option_map, unwrap_or};
ghost use Rattle.pgo_base.specs.ExprView.{tree};
ghost use Rattle.pgo_base.specs.Lookup.{find};
ghost use Rattle.pgo_put_sizes.specs.Levels as spec;
ghost use Rattle.pgo_put_sizes.specs.Levels.{level_nodes};
ghost use Rattle.pgo_put_sizes.specs.Under.{puts_under};
ghost use Rattle.pgo_rewrite.specs.Scopes.{in_scope};
ghost use Rattle.pgo_sections.specs.Nodes.{tree_nodes};

use pgo_base::expr::Expr;
use pgo_base::text::Text;
use pgo_rewrite::arguments::Arguments;
use pgo_rewrite::scopes::Scope;

/// An expression, and the arguments that are still to be put into it.
#[derive(Clone, Copy)]
pub(crate) struct Level<'a> {
    pub layers: &'a [Arguments],
    pub e: &'a Expr,
}

/// The name that an expression is, where it is not bound around.
fn free_name<'a>(scope: &Scope<'_>, e: &'a Expr) -> Option<&'a Text>
    ensures { option_map (λ x. x.now) result ≡ spec.free_name (in_scope scope.now) (tree e.entry.now) }
{
    match e {
        Expr::Name(x) if !scope.has(x) => Some(x),
        _ => None,
    }
}

/// What stands for a name, or else this expression.
fn replacement<'a>(es: &'a Arguments, x: &Text, e: &'a Expr) -> &'a Expr
    ensures { tree result.now ≡ unwrap_or (find x.now es.entry.now) (tree e.entry.now) }
{
    match es.find(x) {
        Some(a) => a,
        None => e,
    }
}

/// The expression that comes of a name and of each name that stands for it, and the arguments that are still to be put into it.
///
/// It is no name, or one that is bound around, or no arguments are left.
pub(crate) fn resolve<'a>(layers: &'a [Arguments], scope: &Scope<'_>, e: &'a Expr) -> Level<'a>
    ensures { level_nodes result.layers.now (in_scope scope.now) (tree result.e.now) ≡ tree_nodes (puts_under layers.entry.now (in_scope scope.now) (tree e.entry.now)) }
{
    let mut e = e;
    for (i, es) in layers.iter().enumerate() {
        match free_name(scope, e) {
            None => {
                return Level {
                    layers: &layers[i..],
                    e,
                };
            }
            Some(x) => e = replacement(es, x, e),
        }
    }
    Level { layers: &[], e }
}
