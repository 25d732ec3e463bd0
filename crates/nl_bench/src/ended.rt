// How a run of the program ends.
ghost use Rattle.std.specs.Prelude.{◌≡◌};

/// How a run ends, as the program's status says.
#[derive(Clone, Copy, Debug, PartialEq, Eq)]
pub(crate) enum Ended {
    /// Each line was run, and the sink took each answer.
    Done,
    /// The words of the command line are no two numbers of a volume. Nothing is read.
    Words,
    /// The script is refused, and no line of it is run.
    Refused,
    /// Standard input could not be read.
    NotRead,
    /// The sink did not take the text. No more lines are run.
    NotPrinted,
    Memory,
}

impl Ended {
    /// The status of the program, which `nameless` has for the same ends.
    pub(crate) fn status(self) -> u8
        ensures done { self ≡ Ended.Done → result ≡ 0 }
        ensures words { self ≡ Ended.Words → result ≡ 2 }
        ensures refused { self ≡ Ended.Refused → result ≡ 2 }
        ensures not_read { self ≡ Ended.NotRead → result ≡ 3 }
        ensures not_printed { self ≡ Ended.NotPrinted → result ≡ 4 }
        ensures memory { self ≡ Ended.Memory → result ≡ 6 }
    {
        match self {
            Ended::Done => 0,
            Ended::Words | Ended::Refused => 2,
            Ended::NotRead => 3,
            Ended::NotPrinted => 4,
            Ended::Memory => 6,
        }
    }
}
