// Texts of specifications, read or refused. The offset is counted from the text between the kept ones that it stands within.
//
// `ask counts` asks how many parts a specification has, and of the first statement of its first archetype `ask branches` for
// the branches of an `if` and of the one in its first branch, and `ask assigned` for the names of an assignment with their
// offsets; a row without them asks whether the text is read.
use crate::answer::Answer;
use crate::shapes::{assigned, branches, counts};
use crate::texts::{Asked, Question};
use pgo_mpcal_read::reader::read_spec;
use pgo_syntax::spec::Spec;
use std::alloc::AllocError;

pub fn answer(asked: &Asked<'_>) -> Result<Answer, AllocError> {
    match read_spec(asked.alloc, asked.text) {
        Ok(spec) => Ok(Answer::Read(asked_of(asked, &spec)?)),
        Err(stop) => Answer::refused(asked.alloc, stop, asked.start),
    }
}

fn asked_of(asked: &Asked<'_>, spec: &Spec) -> Result<String, AllocError> {
    match asked.question {
        Question::Counts => counts(asked.alloc, spec),
        Question::Branches => branches(asked.alloc, spec),
        Question::Assigned => assigned(asked.alloc, spec, asked.start),
        _ => String::from_str(asked.alloc, "read"),
    }
}
