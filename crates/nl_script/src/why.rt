// The causes for which a script is refused.
ghost use Rattle.std.specs.Prelude.{◌≡◌};
ghost use Rattle.nl_script.specs.Causes.{cause_word};

/// Why a script is refused.
#[derive(Clone, Copy, Debug, PartialEq, Eq)]
pub enum Why {
    /// The script has more than 16,777,216 bytes.
    Size,
    /// A line has more than 140,000 bytes, or a length is above 65,536.
    Long,
    /// A byte below 0x20 or 0x7F, in a line that is no comment.
    Byte,
    Worker,
    Command,
    Path,
    Number,
    Hex,
    /// A word is due and none is left.
    Missing,
    /// A word follows a whole line.
    Extra,
    /// There are more than 1,000,000 calls.
    Lines,
    /// The sum of the read lengths exceeds 268,435,456.
    Total,
}

impl Why {
    /// The word that is printed for the cause.
    pub fn word(self) -> &'static [u8]
        ensures word { result.now ≡ cause_word self }
    {
        match self {
            Why::Size => b"size",
            Why::Long => b"long",
            Why::Byte => b"byte",
            Why::Worker => b"worker",
            Why::Command => b"command",
            Why::Path => b"path",
            Why::Number => b"number",
            Why::Hex => b"hex",
            Why::Missing => b"missing",
            Why::Extra => b"extra",
            Why::Lines => b"lines",
            Why::Total => b"total",
        }
    }
}
