// That a mailbox and a cell answer alike.
ghost use Rattle.pgo_mailbox.specs.Alike.{Alike};

/// Of a mailbox and a cell that show the same, every list of reads, writes, pre-commits, commits and aborts, by any macros, has the same
/// answers where memory isn't wanting, and they show the same behind it. So it is by the clauses of a content, which both meet.
pub fn mailboxes_answer_as_cells()
    ensures { Alike }
{}
