//! Where a medium in memory stops, and what that leaves of its pages.
ghost use Rattle.std.specs.Prelude.{◌≡◌, ◌/◌, ◌%◌, ◌^◌};
ghost use Rattle.nl_nand.specs.Stop.{outcome_of};

/// What becomes of the pages of an operation that is cut short.
#[derive(Clone, Copy, Debug, PartialEq, Eq)]
pub enum Cut {
    /// The pages stay as they were.
    Before,
    /// The pages are as the finished operation leaves them.
    After,
    /// The pages are uncorrectable.
    Spoilt,
    /// The ternary digits of the number, the least first, say it page by page: 0 as `Before`, 1 as `After` and 2 as
    /// `Spoilt`. After 40 pages the digits are taken again from the least.
    Mixed(u64),
}

/// A stop within the program or erase of that number, counted from 1.
#[derive(Clone, Copy, Debug, PartialEq, Eq)]
pub struct Stop {
    pub operation: u64,
    pub cut: Cut,
}

/// What becomes of one page of an operation that is cut short.
#[derive(Clone, Copy, Debug, PartialEq, Eq)]
pub enum Outcome {
    Stays,
    Finished,
    Lost,
}

/// The ternary digit at that place.
fn digit(number: u64, place: usize) -> u64
    ensures { result ≡ number / 3 ^ place % 3 }
{
    let mut rest = number;
    for _ in 0..place {
        rest /= 3;
    }
    rest % 3
}

impl Cut {
    /// What becomes of the page at that place of the operation's range.
    pub fn outcome(self, at: usize) -> Outcome
        ensures { result ≡ outcome_of self at }
    {
        match self {
            Cut::Before => Outcome::Stays,
            Cut::After => Outcome::Finished,
            Cut::Spoilt => Outcome::Lost,
            Cut::Mixed(number) => match digit(number, at % 40) {
                0 => Outcome::Stays,
                1 => Outcome::Finished,
                _ => Outcome::Lost,
            },
        }
    }
}
