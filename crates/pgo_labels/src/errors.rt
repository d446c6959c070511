// Why the labels of a specification are refused.
ghost use Rattle.std.specs.Prelude.{◌≡◌};
ghost use Rattle.pgo_labels.specs.declared.errors.LabelError.TheVariants as errors;

use pgo_base::text::Text;
use std::alloc::AllocError;
use std::fmt::{self, Debug, Formatter, Write};
use thiserror::Error;

/// Why the labels of a specification are refused, in the order in which the rules are checked.
///
/// - `NeedsLabel`: a statement of the archetype has no label and needs one; `after` is the last label before it, empty
///   where there is none.
/// - `LabelHere`: the label stands in a `with`, or in a macro or a mapping macro, whose name is then the archetype's.
/// - `UnknownLabel`: a `goto` names what is neither a label of its archetype nor `Done`.
/// - `LabelTwice`: the archetype has the label twice.
/// - `ReservedDone`: the archetype has a label that is called `Done`.
/// - `YieldRule`: some path of a block of the mapping macro doesn't end in its one `yield`, or there stands in it what
///   may not.
/// - `TooManyLabels`: the archetype has more than 256 labels.
/// - `NoMemory`: there was no memory for what had to be stored.
///
/// Source: the PlusCal manual for where a label must or may not stand; the Modular PlusCal paper for `yield`; this
/// project's choice for the rest.
#[derive(Drop, Error)]
pub enum LabelError {
    #[error("a statement that needs a label")]
    NeedsLabel { archetype: Text, after: Text },
    #[error("a label where none may stand")]
    LabelHere { archetype: Text, label: Text },
    #[error("a goto to an unknown label")]
    UnknownLabel { archetype: Text, label: Text },
    #[error("a label that stands twice")]
    LabelTwice { archetype: Text, label: Text },
    #[error("a label called Done")]
    ReservedDone { archetype: Text },
    #[error("a mapping macro that does not end in one yield")]
    YieldRule { mapping: Text },
    #[error("too many labels")]
    TooManyLabels { archetype: Text },
    #[error("out of memory")]
    NoMemory,
}

impl Debug for LabelError {
    fn fmt<W: Write>(&self, f: &mut Formatter<W>) -> fmt::Result {
        f.write_str(match self {
            LabelError::NeedsLabel { .. } => "NeedsLabel",
            LabelError::LabelHere { .. } => "LabelHere",
            LabelError::UnknownLabel { .. } => "UnknownLabel",
            LabelError::LabelTwice { .. } => "LabelTwice",
            LabelError::ReservedDone { .. } => "ReservedDone",
            LabelError::YieldRule { .. } => "YieldRule",
            LabelError::TooManyLabels { .. } => "TooManyLabels",
            LabelError::NoMemory => "NoMemory",
        })
    }
}

impl From<AllocError> for LabelError {
    ghost from_gives = { λ _ e. e ≡ errors.NoMemory };

    fn from(_error: AllocError) -> LabelError {
        LabelError::NoMemory
    }
}
