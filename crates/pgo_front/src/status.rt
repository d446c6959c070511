// How a command ended.
ghost use Rattle.std.specs.Prelude.{◌≡◌, option_map};
ghost use Rattle.pgo_front.specs.Statuses.{number_of, line_of};

/// How a command ended. This project's choice.
#[derive(Clone, Copy, Debug, PartialEq, Eq)]
pub enum Status {
    /// Every instance is at Done, or the bundle's log is a run of its module, or the specification is translated, or the load is
    /// judged, or the bundle is brought over.
    Fine,
    /// The words ask for nothing that there is.
    Usage,
    /// The text spells no specification, or one that is refused.
    SpecRefused,
    /// The input failed.
    ReadFault,
    /// The output failed; it holds a prefix of what was to be written.
    WriteFault,
    /// A specification has more than 1,048,576 bytes, or a bundle more than 268,435,456.
    TooLong,
    /// Some instance came to a value that there isn't, or to an assertion that fails.
    Stopped,
    /// Some instance isn't at Done, none came to what stops it, and some instance that isn't at Done isn't blocked.
    Spent,
    /// Some instance isn't at Done, none came to what stops it, and each that isn't at Done is blocked, whatever it chooses.
    Quiet,
    /// Some instance's last attempt was refused because the journal was full.
    Full,
    /// The bundle's log is no run of its module.
    NotARun,
    /// The text is no bundle; or of one that is to be brought over, it is none of version 1 whose records are tied to its entries.
    BadBundle,
    /// There was no memory; or an expression opens more than 640 levels, is made more than 1,024 high by macros, or a module's text
    /// has 2^32 bytes or more.
    NoMemory,
}

impl Status {
    /// The exit status: 0, 10, 11, 12, 13, 14, 20, 21, 22, 23, 30, 31 or 40.
    pub fn number(self) -> u8
        ensures { result ≡ number_of self }
    {
        match self {
            Status::Fine => 0,
            Status::Usage => 10,
            Status::SpecRefused => 11,
            Status::ReadFault => 12,
            Status::WriteFault => 13,
            Status::TooLong => 14,
            Status::Stopped => 20,
            Status::Spent => 21,
            Status::Quiet => 22,
            Status::Full => 23,
            Status::NotARun => 30,
            Status::BadBundle => 31,
            Status::NoMemory => 40,
        }
    }

    /// The line that a refusal puts on the error output; none where the command did its work, none where a specification is
    /// refused, whose line says what refused it, and none where a text is no bundle, whose line names a line of it.
    pub fn line(self) -> Option<&'static [u8]>
        ensures { option_map (λ l. l.now) result ≡ line_of self }
    {
        match self {
            Status::Fine
            | Status::Stopped
            | Status::Spent
            | Status::Quiet
            | Status::Full
            | Status::NotARun
            | Status::SpecRefused
            | Status::BadBundle => None,
            Status::Usage => Some(b"pgo: usage\n"),
            Status::ReadFault => Some(b"pgo: read fault\n"),
            Status::WriteFault => Some(b"pgo: write fault\n"),
            Status::TooLong => Some(b"pgo: too long\n"),
            Status::NoMemory => Some(b"pgo: no memory\n"),
        }
    }
}
