// Which contents of a run are mailboxes.
ghost use Rattle.pgo_starts.specs.Mailboxes.{ToldByChannels};

/// The test by which a content is a mailbox passes exactly where its resource is an element of a global for which some parameter of
/// an instance stands by a reliable channel, and starts with a sequence.
pub fn mailboxes_are_of_channels()
    ensures { ToldByChannels }
{}
