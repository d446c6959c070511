// The offset of a refusal.
ghost use Rattle.pgo_expr_read.specs.Stops.{IsAsSevere, IsWithin};

use pgo_lexer::errors::TextStop;

/// The same error, with an offset of at most the length of the text. No reader gives a larger one; it is held here, so that
/// a contract can say so.
pub fn within(stop: TextStop, length: usize) -> TextStop
    ensures same { IsAsSevere stop result }
    ensures within { IsWithin length result }
{
    match stop {
        TextStop::Syntax { offset } => TextStop::Syntax {
            offset: offset.min(length as u64),
        },
        TextStop::NoMemory => TextStop::NoMemory,
    }
}
