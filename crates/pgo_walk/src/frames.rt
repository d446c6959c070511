// What is still to be done of a section.
ghost use Rattle.std.specs.Prelude.{◌≡◌, option_map, IfOk};
ghost use Rattle.pgo_effects.specs.Todos.{code_of};
ghost use Rattle.pgo_effects.specs.Pieces.{piece_code};
ghost use Rattle.pgo_meaning.specs.Statements.{Setting as Names};
ghost use Rattle.pgo_effects.specs.SettingView.{setting_view};
ghost use Rattle.pgo_walk.specs.FrameView.{code_left, run_view};
ghost use Rattle.pgo_walk.specs.Frames as spec;
ghost use Rattle.pgo_walk.specs.SettingPlaces.{places_in};

use crate::made::Made;
use crate::stack::Stack;
use pgo_base::expr::Sub;
use pgo_base::results::both;
use pgo_base::text::Text;
use pgo_effects::piece::{Last, Piece};
use pgo_effects::setting::Setting;
use pgo_effects::todo::Todo;
use pgo_rewrite::mapped::Mapped;
use std::alloc::{AllocError, Global};
use std::rc::Rc;

/// Code of which so many effects are done, and what the names that it binds stand for.
#[derive(Drop)]
pub struct Run<'a, 'i> {
    pub setting: Setting<'a, 'i>,
    pub piece: Rc<Piece<'a>>,
    pub done: usize,
    pub renames: Made,
}

/// A part of what is still to be done.
#[derive(Drop)]
pub enum Frame<'a, 'i> {
    /// this code
    Run(Run<'a, 'i>),
    /// A yield ends a read of the mapped parameter, or of its element at what `index` stands for; then the code, where `value`
    /// stands for what is read. `current` has the current values before the read.
    Reading {
        value: Text,
        mapped: Mapped<'a>,
        index: Option<Text>,
        rest: Run<'a, 'i>,
        current: Made,
    },
    /// A yield ends a write to the mapped parameter, or to its element.
    Writing {
        mapped: Mapped<'a>,
        index: Option<Text>,
        renames: Made,
        current: Made,
    },
    /// The mapped parameter, or its element, has this value.
    Put {
        mapped: Mapped<'a>,
        index: Option<Text>,
        renames: Made,
        value: Sub,
    },
}

/// What is still to be done, the current values of the variables, and how many names are bound above.
#[derive(Drop)]
pub struct State<'a, 'i> {
    pub frames: Stack<Frame<'a, 'i>>,
    pub current: Made,
    pub bound: u64,
}

/// A name once more, if there is one.
pub fn copy_name(alloc: Global, name: Option<&Text>) -> Result<Option<Text>, AllocError>
    ensures { IfOk result (λ n. n ≡ option_map (λ x. x.now) name.entry) }
{
    match name {
        None => Ok(None),
        Some(x) => Ok(Some(x.copy(alloc)?)),
    }
}

/// This code, which has not been looked at.
pub fn whole_piece<'a>(alloc: Global, todo: Todo<'a>) -> Piece<'a>
    ensures { (s : Names) → piece_code s result ≡ code_of s todo.entry }
{
    Piece {
        effects: Vec::new(alloc),
        last: Last::Code(todo),
    }
}

/// One level of code in a place of its own, which several runs may hold.
fn shared<'a>(alloc: Global, piece: Piece<'a>) -> Result<Rc<Piece<'a>>, AllocError>
    ensures { IfOk result (λ r. r.value ≡ piece.entry) }
{
    Ok(Rc::new(alloc, piece)?)
}

impl<'a, 'i> Run<'a, 'i> {
    /// This code, of which nothing is done.
    pub fn new(
        alloc: Global,
        setting: Setting<'a, 'i>,
        piece: Piece<'a>,
        renames: &Made,
    ) -> Result<Run<'a, 'i>, AllocError>
        ensures { IfOk result (λ r. run_view r ≡ spec.Run (places_in setting.entry) (piece_code (setting_view setting.entry) piece.entry) renames.now) }
    {
        let (piece, renames) = both(shared(alloc, piece), renames.copy(alloc))?;
        Ok(Run {
            setting,
            piece,
            done: 0,
            renames,
        })
    }

    /// The same once more.
    pub fn copy(&self, alloc: Global) -> Result<Run<'a, 'i>, AllocError>
        ensures places { IfOk result (λ r. places_in r.setting ≡ places_in self.now.setting) }
        ensures code { IfOk result (λ r. code_left r ≡ code_left self.now) }
        ensures renames { IfOk result (λ r. r.renames ≡ self.now.renames) }
    {
        let (piece, renames) = both(self.piece.clone(), self.renames.copy(alloc))?;
        Ok(Run {
            setting: self.setting,
            piece,
            done: self.done,
            renames,
        })
    }
}
