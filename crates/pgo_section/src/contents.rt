// What is done to the contents of all held resources.
ghost use Rattle.std.specs.Prelude.{◌≡◌, if◌then◌else◌};
ghost use Rattle.pgo_workers.specs.View.{Once, resources_of, aborted, committed};
ghost use Rattle.pgo_workers.specs.Worker.{with_held};

use pgo_resource::board::Board;
use pgo_resource::resource::Resource;

/// Puts back what was written. It takes no memory.
pub fn abort_all<B: Board>(taken: &Vec<u32>, board: &mut B)
    requires held { taken.now.items ≡ resources_of (B.shows board.old).held }
    requires once { Once taken.now.items }
    ensures system { B.layout board.new ≡ B.layout board.old }
    ensures stays { B.stays board.old board.new }
    ensures moved { B.moved board.new ≡ B.moved board.old }
    ensures shows { B.shows board.new ≡ with_held (aborted (B.shows board.old).held) (B.shows board.old) }
{
    for index in 0..taken.len() {
        board.content(taken[index]).abort();
    }
}

/// Puts back what was written, where `back` says so. It takes no memory.
pub fn put_back<B: Board>(back: bool, taken: &Vec<u32>, board: &mut B)
    requires held { taken.now.items ≡ resources_of (B.shows board.old).held }
    requires once { Once taken.now.items }
    ensures system { B.layout board.new ≡ B.layout board.old }
    ensures stays { B.stays board.old board.new }
    ensures moved { B.moved board.new ≡ B.moved board.old }
    ensures shows { B.shows board.new ≡ with_held (if back then aborted (B.shows board.old).held else (B.shows board.old).held) (B.shows board.old) }
{
    if back {
        abort_all(taken, board);
    }
}

/// Makes what was written the base. It takes no memory.
pub fn commit_all<B: Board>(taken: &Vec<u32>, board: &mut B)
    requires held { taken.now.items ≡ resources_of (B.shows board.old).held }
    requires once { Once taken.now.items }
    ensures system { B.layout board.new ≡ B.layout board.old }
    ensures stays { B.stays board.old board.new }
    ensures moved { B.moved board.new ≡ B.moved board.old }
    ensures shows { B.shows board.new ≡ with_held (committed (B.shows board.old).held) (B.shows board.old) }
{
    for index in 0..taken.len() {
        board.content(taken[index]).commit();
    }
}
