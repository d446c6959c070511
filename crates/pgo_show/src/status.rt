// How an explanation ended.
ghost use Rattle.std.specs.Prelude.{◌≡◌, option_map};
ghost use Rattle.pgo_show.specs.Statuses.{number_of, line_of};

/// How an explanation ended. This project's choice.
#[derive(Clone, Copy, Debug, PartialEq, Eq)]
pub enum Status {
    /// The bundle is explained.
    Fine,
    /// The words ask for nothing that there is.
    Usage,
    /// The input failed.
    ReadFault,
    /// The output failed; it holds a prefix of what was to be written.
    WriteFault,
    /// The bundle has more than 268,435,456 bytes.
    TooLong,
    /// The text is no bundle.
    BadBundle,
    /// The words ask for a component that the log doesn't have.
    NoComponent,
    /// There was no memory.
    NoMemory,
}

impl Status {
    /// The exit status: 0, 10, 12, 13, 14, 31 or 40. The words ask for nothing that there is, and have 10, where they ask for a component
    /// that isn't there too.
    pub fn number(self) -> u8
        ensures { result ≡ number_of self }
    {
        match self {
            Status::Fine => 0,
            Status::Usage | Status::NoComponent => 10,
            Status::ReadFault => 12,
            Status::WriteFault => 13,
            Status::TooLong => 14,
            Status::BadBundle => 31,
            Status::NoMemory => 40,
        }
    }

    /// The line that a refusal puts on the error output; none where the bundle is explained, none where a text is no bundle, whose line
    /// names a line of it, and none where a component isn't there, whose line names it.
    pub fn line(self) -> Option<&'static [u8]>
        ensures { option_map (λ l. l.now) result ≡ line_of self }
    {
        match self {
            Status::Fine | Status::BadBundle | Status::NoComponent => None,
            Status::Usage => Some(b"pgo: usage\n"),
            Status::ReadFault => Some(b"pgo: read fault\n"),
            Status::WriteFault => Some(b"pgo: write fault\n"),
            Status::TooLong => Some(b"pgo: too long\n"),
            Status::NoMemory => Some(b"pgo: no memory\n"),
        }
    }
}
