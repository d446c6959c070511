// Which instance makes a turn when.

/// A list of turns, each of the instance with that number; or rounds, in each of which every instance that hasn't ended makes
/// one turn, in the order of their numbers, until all have ended. This project's choice.
#[derive(Drop)]
pub enum Schedule {
    Turns(Vec<u32>),
    Rounds,
}
