// What is found wrong with what a variable starts with, and where.
use pgo_base::text::Text;

/// What is wrong with the set behind `\in`.
#[derive(Clone, Copy)]
pub enum Lack {
    /// There is none.
    NoSet,
    /// It is empty.
    NoMember,
}

/// A name, with its place in the text.
#[derive(Clone, Copy)]
pub struct Finding<'a> {
    pub place: u32,
    pub name: &'a Text,
}
