// Verdicts: whether a log is a run of a module, where it first isn't one, and why.
use crate::answers::{name, value};
use crate::operators::operands::elements;
use crate::scene::HEIGHT;
use pgo_base::consts::Consts;
use pgo_base::expr::{Expr, Names, Sub};
use pgo_base::log::{Change, Changes, Component, Entries, Entry, Log, Owner, Values};
use pgo_base::module::{Action, Actions, Defs, Module, Processes, WrittenProcess};
use pgo_base::results::both;
use pgo_base::scope::State;
use pgo_base::text::Text;
use pgo_base::value::Value;
use pgo_check::checker::check;
use pgo_check::verdict::{Verdict, Why};
use pgo_expr_read::reader::read_expr;
use pgo_sheet::answers::unless_same;
use pgo_sheet::sheet::{Subject, halves};
use std::alloc::{AllocError, Global};
use std::mem;

/// The module, of whose process the actions come before it; the log of the row, its last entry, to which changes are still added, apart; and the
/// constants of the row.
#[derive(Drop)]
pub struct Verdicts {
    alloc: Global,
    module: Module,
    actions: Actions,
    log: Log,
    last: Option<Entry>,
    constants: Vec<(Text, Value)>,
}

impl Verdicts {
    /// A module without variables, processes and actions, in which every state is a start, and a log without instances, variables and entries.
    pub fn new(alloc: Global) -> Result<Verdicts, AllocError> {
        let (name, init) = both(name(alloc, "Module"), Sub::new(alloc, Expr::Truth(true)))?;
        Ok(Verdicts {
            alloc,
            module: Module {
                name,
                constants: Names::from_vec(Vec::new(alloc)),
                definitions: Defs::new(alloc),
                variables: Names::from_vec(Vec::new(alloc)),
                init,
                processes: Processes::new(alloc),
            },
            actions: Actions::new(alloc),
            log: Log {
                ids: Values::new(alloc),
                start: State::from_vec(Vec::new(alloc)),
                entries: Entries::new(alloc),
            },
            last: None,
            constants: Vec::new(alloc),
        })
    }

    /// A line whose text is an expression behind a name, if any.
    fn take_expression(&mut self, key: &str, text: &str) -> Result<bool, AllocError> {
        let (x, body) = match key {
            "init" => ("", text),
            _ => halves(text),
        };
        match read_expr(self.alloc, body.as_bytes(), HEIGHT) {
            Ok(e) => {
                let (name, body) = both(name(self.alloc, x), Sub::new(self.alloc, e))?;
                self.put(key, name, body)?;
                Ok(true)
            }
            Err(_) => Ok(false),
        }
    }

    fn put(&mut self, key: &str, name: Text, body: Sub) -> Result<(), AllocError> {
        match key {
            "init" => self.module.init = body,
            "action" => self.actions.push(Action { name, body })?,
            _ => {
                let none = Actions::new(self.alloc);
                let actions = mem::replace(&mut self.actions, none);
                self.module.processes.push(WrittenProcess {
                    name,
                    ids: body,
                    actions,
                })?;
            }
        }
        Ok(())
    }

    /// A line whose text is a value behind a name.
    fn take_value(&mut self, key: &str, text: &str) -> Result<bool, AllocError> {
        let (x, text) = halves(text);
        let (name, v) = both(name(self.alloc, x), value(self.alloc, text))?;
        match (key, v) {
            ("constant", Some(v)) => self.constants.push((name, v))?,
            ("start", Some(v)) => self.begin_at(name, v)?,
            ("set", Some(v)) => return self.add_change(x, v),
            _ => return Ok(false),
        }
        Ok(true)
    }

    /// The variable is this at the start; it keeps its place among the variables.
    fn begin_at(&mut self, x: Text, v: Value) -> Result<(), AllocError> {
        let none = State::from_vec(Vec::new(self.alloc));
        let old = mem::replace(&mut self.log.start, none).into_vec();
        let mut list = Vec::new(self.alloc);
        let mut new = Some(v);
        for (y, w) in old {
            if x.is(&y) {
                let v = new.take().unwrap_or(w);
                list.push((y, v))?;
            } else {
                list.push((y, w))?;
            }
        }
        if let Some(v) = new {
            list.push((x, v))?;
        }
        self.log.start = State::from_vec(list);
        Ok(())
    }

    /// `step INSTANCE LABEL NEXT`: another entry, to which changes are added.
    fn begin_entry(&mut self, text: &str) -> Result<bool, AllocError> {
        let (instance, labels) = halves(text);
        let (label, next) = halves(labels);
        let Ok(instance) = instance.parse::<u32>() else {
            return Ok(false);
        };
        self.end_entry()?;
        let (label, next) = both(name(self.alloc, label), name(self.alloc, next))?;
        self.last = Some(Entry {
            instance,
            attempt: 1,
            label,
            next,
            changes: Changes::new(self.alloc),
            prints: Values::new(self.alloc),
        });
        Ok(true)
    }

    fn end_entry(&mut self) -> Result<(), AllocError> {
        match self.last.take() {
            Some(entry) => self.log.entries.push(entry),
            None => Ok(()),
        }
    }

    /// A change of the last entry: of a variable, or of its value at an index in brackets.
    fn add_change(&mut self, place: &str, v: Value) -> Result<bool, AllocError> {
        let Some(component) = component(self.alloc, place)? else {
            return Ok(false);
        };
        match &mut self.last {
            Some(entry) => {
                entry.changes.push(Change {
                    component,
                    value: v,
                })?;
                Ok(true)
            }
            None => Ok(false),
        }
    }

    fn answer(&mut self) -> Result<String, AllocError> {
        self.end_entry()?;
        let none = Vec::new(self.alloc);
        let consts = Consts::from_vec(mem::replace(&mut self.constants, none));
        match check(self.alloc, &self.module, &consts, &self.log) {
            Ok(verdict) => written(self.alloc, verdict),
            Err(_) => Err(AllocError),
        }
    }
}

impl Subject for Verdicts {
    fn take(&mut self, key: &str, text: &str) -> Result<bool, AllocError> {
        match key {
            "init" | "action" | "process" => self.take_expression(key, text),
            "ids" => match value(self.alloc, text)? {
                Some(v) => {
                    self.log.ids = Values::from_vec(elements(self.alloc, &v)?);
                    Ok(true)
                }
                None => Ok(false),
            },
            "step" => self.begin_entry(text),
            _ => self.take_value(key, text),
        }
    }

    fn end(&mut self, wanted: &str) -> Result<Option<String>, AllocError> {
        let answer = self.answer()?;
        self.log.entries = Entries::new(self.alloc);
        Ok(unless_same(answer, wanted))
    }
}

/// `x` or `x[INDEX]`; none where the index is no value text.
fn component(alloc: Global, place: &str) -> Result<Option<Component>, AllocError> {
    let (x, index) = place.split_once('[').unwrap_or((place, ""));
    let index = value(alloc, index.strip_suffix("]").unwrap_or(""))?;
    if index.is_none() && x.len() < place.len() {
        return Ok(None);
    }
    Ok(Some(Component {
        variable: name(alloc, x)?,
        index,
        owner: Owner::Unowned,
    }))
}

/// `run of N`, or `no init at N` or `no step at N`
fn written(alloc: Global, verdict: Verdict) -> Result<String, AllocError> {
    match verdict {
        Verdict::Run { steps } => format!(in alloc; "run of {steps}"),
        Verdict::Bad {
            at,
            why: Why::NoInit,
        } => format!(in alloc; "no init at {at}"),
        Verdict::Bad {
            at,
            why: Why::NoStep,
        } => format!(in alloc; "no step at {at}"),
    }
}
