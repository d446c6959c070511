// The command `load`: a specification made from a number is run and judged.
ghost use Rattle.std.specs.Prelude.{◌≡◌, None, IfOk, IfErr};
ghost use Rattle.pgo_accept.specs.Refusals.{RefusedWith};
ghost use Rattle.pgo_load.specs.Load.{load_consts, load_text};
ghost use Rattle.pgo_model.specs.ModuleText.{flatten};
ghost use Rattle.pgo_front.specs.Loads.{load_line};
ghost use Rattle.pgo_front.specs.Makes.{HasLine, MakesLoad, StopsSpec, bytes_of};

use crate::ended::Ended;
use crate::output::{Output, Written};
use crate::status::Status;
use pgo_lines::line::Lines;
use pgo_lines::line::Piece::{Bytes, Number};
use pgo_load::load::{Loaded, load};
use std::alloc::{AllocError, Global};
use std::thread::Threads;

/// Makes the line of the load of this size.
pub fn make_load<T: Threads + Sync>(rt: &T, alloc: Global, size: u32) -> Result<Output, Ended>
    ensures ok { IfOk result (MakesLoad size) }
    ensures fine { IfOk result (λ m. m.status ≡ Status.Fine) }
    ensures err { IfErr result (λ e. StopsSpec (load_text size) (load_consts size) e.status) }
    ensures line { IfErr result (λ e. HasLine (RefusedWith (load_text size) (load_consts size)) e.status e.line) }
{
    match load(rt, alloc, size) {
        Ok(loaded) => loaded_made(alloc, size, loaded),
        Err(rejection) => Err(Ended::as_rejected(alloc, &rejection)),
    }
}

/// The line of a load that was judged; without memory, the status of that.
fn loaded_made(alloc: Global, size: u32, loaded: Loaded) -> Result<Output, Ended>
    ensures ok { IfOk result (λ m. bytes_of m.written ≡ load_line size loaded.instances loaded.steps) }
    ensures fine { IfOk result (λ m. m.status ≡ Status.Fine) }
    ensures err { IfErr result (λ e. e.status ≡ Status.NoMemory) }
    ensures line { IfErr result (λ e. e.line ≡ None) }
{
    match load_lines(alloc, size, loaded) {
        Ok(lines) => Ok(Output {
            written: Written::Lines(lines),
            status: Status::Fine,
        }),
        Err(_) => Err(Ended::as_status(Status::NoMemory)),
    }
}

/// `load size: instances so many, steps so many, verdict run so many`.
fn load_lines(alloc: Global, size: u32, loaded: Loaded) -> Result<Lines, AllocError>
    ensures { IfOk result (λ ls. flatten ls ≡ load_line size loaded.instances loaded.steps) }
{
    let mut lines = Lines::new(alloc);
    lines.push(
        alloc,
        &[
            Bytes(b"load "),
            Number(size as u64),
            Bytes(b": instances "),
            Number(loaded.instances),
            Bytes(b", steps "),
            Number(loaded.steps),
            Bytes(b", verdict run "),
            Number(loaded.steps),
        ],
    )?;
    Ok(lines)
}
