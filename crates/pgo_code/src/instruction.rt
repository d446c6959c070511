// The instructions of sections.

use pgo_base::expr::Sub;
use pgo_base::text::Text;
use pgo_rewrite::mapped::Mapped;

/// An unmapped parameter that is read before an expression is evaluated, and the number of its resource, if there is one.
#[derive(Drop)]
pub struct Unmapped {
    pub name: Text,
    pub resource: Option<u32>,
}

/// An expression, and the unmapped parameters that are read before it is evaluated, each once, in the order of their first
/// occurrence.
#[derive(Drop)]
pub struct Evaluation {
    pub expression: Sub,
    pub reads: Vec<Unmapped>,
}

/// What is assigned: a resource, if there is one, or a variable of the instance, by its written name.
#[derive(Drop)]
pub enum Target {
    Resource(Option<u32>),
    Own(Text),
}

/// A mapped parameter: its global and macro; whether the global is bound by element, and else the number of its resource, if there is
/// one.
#[derive(Drop)]
pub struct Content<'a> {
    pub mapped: Mapped<'a>,
    pub is_element: bool,
    pub whole: Option<u32>,
}

/// One instruction. Where an instruction passes over others, it says over how many of those behind it.
#[derive(Drop)]
pub enum Instruction<'a> {
    /// the name stands for the value of the expression, up to its `Unbind`
    Bind {
        name: Text,
        value: Evaluation,
    },
    /// the name stands for a member of the set, up to its `Unbind`
    Pick {
        name: Text,
        set: Evaluation,
    },
    /// the newest name stands for nothing any more
    Unbind,
    /// the target becomes what the name stands for
    Assign {
        target: Target,
        name: Text,
    },
    /// the target becomes the value of the expression
    Set {
        target: Target,
        value: Evaluation,
    },
    Await(Evaluation),
    Assert(Evaluation),
    Print(Evaluation),
    /// where the condition is FALSE, so many instructions are passed over
    Branch {
        condition: Evaluation,
        otherwise: usize,
    },
    /// one of these numbers is picked, and so many instructions are passed over
    Choose(Vec<usize>),
    /// so many instructions are passed over
    Jump(usize),
    /// the section ends at this written label
    End(Text),
    /// the name stands for what is read, up to its `Unbind`; the index is what another name stands for
    Read {
        name: Text,
        content: Content<'a>,
        index: Option<Text>,
    },
    /// what the name stands for is written
    Write {
        content: Content<'a>,
        index: Option<Text>,
        name: Text,
    },
    /// there is no value
    Fail,
}
