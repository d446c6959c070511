// What a command writes when it has done its work.
use crate::status::Status;
use pgo_base::text::Text;
use pgo_lines::line::Lines;

/// What a command writes, each line in one piece.
#[derive(Drop)]
pub enum Written {
    /// lines
    Lines(Lines),
    /// one text
    Text(Text),
}

/// What a command writes, and the status that it ends with.
#[derive(Drop)]
pub struct Output {
    pub written: Written,
    pub status: Status,
}
