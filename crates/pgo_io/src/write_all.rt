ghost use Rattle.std.specs.Prelude.{◌≡◌, ◌≤◌, OnOk, OnErr};
ghost use Rattle.pgo_io.specs.Faults.{Rose};
ghost use Rattle.pgo_io.specs.Sink.{Grows, GrowsByPrefix};

use crate::errors::Failed;
use crate::sink::Sink;

/// Writes the whole piece to the sink. It takes no memory.
///
/// `Failed`: the sink failed. It may have taken a prefix of the piece. This project's choice.
pub fn write_all<O: Sink>(sink: &mut O, piece: &[u8]) -> Result<(), Failed>
    ensures all { OnOk result (Grows (O.held sink.old) (O.held sink.new) piece.now) }
    ensures prefix { OnErr result (GrowsByPrefix (O.held sink.old) (O.held sink.new) piece.now) }
    ensures cause { OnErr result (Rose (O.faults sink.old) (O.faults sink.new)) }
    // A failure is never passed over.
    ensures steady { OnOk result (O.faults sink.new ≡ O.faults sink.old) }
    ensures count { O.faults sink.old ≤ O.faults sink.new }
{
    let mut done = 0;
    while done < piece.len() {
        done += sink.write(&piece[done..])?;
    }
    Ok(())
}
