//! The replies to calls: results, refusals and faults.

/// What a volume ran out of: entries of a directory, nodes, metadata pages, or data pages.
#[derive(Clone, Copy, Debug, PartialEq, Eq)]
pub enum Space {
    Dir,
    Nodes,
    Meta,
    Pages,
}

/// Why a call is refused. It leaves the tree.
#[derive(Clone, Copy, Debug, PartialEq, Eq)]
pub enum Refusal {
    Enoent,
    Eexist,
    Enotdir,
    Eisdir,
    Enotempty,
    Einval,
    Enametoolong,
    Efbig,
    Enospc(Space),
}

/// The reply to a call that met a fault. It leaves the tree.
#[derive(Clone, Copy, Debug, PartialEq, Eq)]
pub enum FaultReply {
    /// An operation of the medium failed for this line. The number is the sum of both fault counts after it.
    Eio(u64),
    /// The volume is read-only since a failed program or erase. The number is the sum of both fault counts after that.
    Erofs(u64),
    /// The write sequence numbers have reached their limit.
    Eworn,
    /// A page does not hold the wanted stamp. The stamp that was found is 0 for none.
    Edamaged { wanted: u64, found: u64 },
}

/// What a call is answered: its result, a refusal, or a fault.
#[derive(Clone, Copy, Debug, PartialEq, Eq)]
pub enum Reply {
    Done,
    /// Bytes written.
    Count(u64),
    /// The bytes read stand in the reply's buffer.
    Content,
    /// The number of names, which stand in the reply's buffer.
    Names(u32),
    /// Bytes, and pages that hold bytes.
    File { size: u64, pages: u32 },
    Dir { entries: u32 },
    /// The count of calls that a stop can no longer lose, and the medium's clock then.
    Synced { upto: u64, moment: u64 },
    No(Refusal),
    Fault(FaultReply),
}
