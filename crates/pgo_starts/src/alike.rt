// That the contents of a run answer as cells.
ghost use Rattle.pgo_starts.specs.Alike.{ContentsAlike};

/// Of a content and a cell that show the same, every list of reads, writes, pre-commits, commits and aborts, by any macros, has the
/// same answers where memory isn't wanting, and they show the same behind it.
pub fn contents_answer_as_cells()
    ensures { ContentsAlike }
{}
