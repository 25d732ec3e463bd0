/// Which page of a transaction is due.
#[derive(Clone, Copy, Debug, PartialEq, Eq)]
pub enum Phase {
    /// The header, where a transaction is frozen.
    Header,
    /// The image of this place among those of the transaction.
    Image(u32),
    /// The commit page.
    Commit,
    /// The page of this place among those of the transaction, to be copied home.
    Home(u32),
}

/// What a unit answers.
#[derive(Clone, Copy, Debug, PartialEq, Eq)]
pub enum Unit {
    /// The header, an image, or a page copied home that is not the last.
    Programmed,
    /// The commit page of this transaction.
    Decided(u64),
    /// The last page is home, and nothing is frozen any more.
    AllHome,
    /// A page that cleaning read does not hold the wanted stamp. The unit is still to be done.
    Lost { wanted: u64, found: u64 },
    /// The medium failed. The unit is still to be done.
    Fault,
}

/// What a commit answers.
#[derive(Clone, Copy, Debug, PartialEq, Eq)]
pub enum Committing {
    /// The transaction of this number took effect, and is copied home.
    Done(u64),
    /// A page that cleaning read does not hold the wanted stamp.
    Lost { wanted: u64, found: u64 },
    /// The medium failed.
    Fault,
}

/// What the journal of a volume that was opened holds.
#[derive(Clone, Copy, Debug, PartialEq, Eq)]
pub enum ReadBack {
    /// The transaction of this number counts.
    Agreed(u64),
    /// No transaction counts.
    Nothing,
    /// A read failed.
    Fault,
}
