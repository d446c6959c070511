// What a macro's block is run with, and the values of expressions in it.
ghost use Rattle.std.specs.Prelude.{◌≡◌, [], codes, IfOk, option_map, unwrap_or, Option};
ghost use Rattle.pgo_base.specs.Data.{Data};
ghost use Rattle.pgo_base.specs.ExprView.{tree};
ghost use Rattle.pgo_base.specs.View.{data_of};
ghost use Rattle.pgo_sets.specs.Answers.{Answers};
ghost use Rattle.pgo_macro_run.specs.Answers.{GivesSo};

use pgo_base::bindings::{Bindings, NamedValue};
use pgo_base::expr::Expr;
use pgo_base::scope::{self, Env, State};
use pgo_base::text::Text;
use pgo_base::value::Value;
use pgo_eval::eval::eval;
use pgo_resource::resource::{MacroEnv, OpStop};
use pgo_sets::errors::EvalStop;
use std::alloc::{AllocError, Global};

/// The definitions and the identifier, the content that the block begins with, and the names of content and identifier.
#[derive(Drop)]
pub struct Around<'a> {
    pub env: MacroEnv<'a>,
    pub old: &'a Value,
    variable: Text,
    itself: Text,
    state: State,
    ghost variable_is: { variable ≡ codes "$variable" },
    ghost itself_is: { itself ≡ codes "self" },
    ghost state_is: { state ≡ [] },
}

impl<'a> Around<'a> {
    ghost use Rattle.pgo_base.specs.Lookup.{same_name};
    ghost use Rattle.pgo_sections.specs.Code.{content_name};
    ghost use Rattle.pgo_macro_run.specs.AroundView.{value_in, env_of};

    /// A block on the content `old`.
    pub fn new(alloc: Global, env: MacroEnv<'a>, old: &'a Value) -> Result<Around<'a>, AllocError>
        ensures { IfOk result (λ a. (a.env ≡ env.entry) × (a.old ≡ old.entry)) }
    {
        let variable = Text::from_slice(alloc, b"$variable")?;
        let itself = Text::from_slice(alloc, b"self")?;
        Ok(Around {
            env,
            old,
            variable,
            itself,
            state: State::from_vec(Vec::new(alloc)),
        })
    }

    /// Whether a name is the content's.
    pub fn is_content(&self, name: &Text) -> bool
        ensures { result ≡ same_name name.now content_name }
    {
        name.is(&self.variable)
    }

    /// What the content is now.
    fn current<'x>(&'x self, content: &'x Option<Value>) -> &'x Value
        ensures { data_of result.now ≡ unwrap_or (option_map data_of content.now) (data_of self.now.old.now) }
    {
        match content {
            Some(v) => v,
            None => self.old,
        }
    }

    /// The value of an expression that sees these names, the content and the identifier.
    pub fn value(
        &'a self,
        alloc: Global,
        names: &'a [NamedValue],
        content: &'a Option<Value>,
        e: &Expr,
    ) -> Result<Value, OpStop>
        ensures { GivesSo data_of (value_in self.now (tree e.now) (env_of names.now) (option_map data_of content.now)) result }
    {
        let outer = Bindings::new();
        let itself = Bindings::with(&self.itself, Some(self.env.id), &outer);
        let variable = Bindings::with(&self.variable, Some(self.current(content)), &itself);
        let names = Bindings::with_values(names, &variable);
        let env = Env {
            names: &names,
            around: scope::Around::one(&self.state),
        };
        answered(eval(alloc, self.env.defs, e, &env))
    }
}

/// The same answer.
fn answered(r: Result<Value, EvalStop>) -> Result<Value, OpStop>
    ensures { (o : Option Data) → Answers r o → GivesSo data_of o result }
{
    match r {
        Ok(v) => Ok(v),
        Err(EvalStop::NoValue) => Err(OpStop::NoValue),
        Err(EvalStop::NoMemory) => Err(OpStop::NoMemory),
    }
}
