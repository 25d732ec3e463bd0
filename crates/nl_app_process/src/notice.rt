/// What the program itself tells on standard error.
#[derive(Clone, Copy, Debug, PartialEq, Eq)]
pub enum Notice {
    /// No image file is named, or a word is not UTF-8.
    Words,
    /// The image file could not be opened or attached.
    MediumFault,
    /// Another program has the image file.
    MediumInUse,
    Memory,
}

impl Notice {
    ghost use Rattle.std.specs.Prelude.{◌≡◌, codes};

    /// The words of the notice, without the end of the line.
    pub fn text(self) -> &'static str
        ensures words { self ≡ Notice.Words → result.now ≡ codes "words" }
        ensures medium_fault { self ≡ Notice.MediumFault → result.now ≡ codes "medium fault" }
        ensures medium_in_use { self ≡ Notice.MediumInUse → result.now ≡ codes "medium in use" }
        ensures memory { self ≡ Notice.Memory → result.now ≡ codes "memory" }
    {
        match self {
            Notice::Words => "words",
            Notice::MediumFault => "medium fault",
            Notice::MediumInUse => "medium in use",
            Notice::Memory => "memory",
        }
    }

    /// The status with which the program ends: 2 for faulty words, 5 for the medium, 6 for want of memory.
    pub fn status(self) -> u8
        ensures words { self ≡ Notice.Words → result ≡ 2 }
        ensures medium_fault { self ≡ Notice.MediumFault → result ≡ 5 }
        ensures medium_in_use { self ≡ Notice.MediumInUse → result ≡ 5 }
        ensures memory { self ≡ Notice.Memory → result ≡ 6 }
    {
        match self {
            Notice::Words => 2,
            Notice::MediumFault => 5,
            Notice::MediumInUse => 5,
            Notice::Memory => 6,
        }
    }
}
