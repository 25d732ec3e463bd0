use nl_tree::Refusal;

/// How the putting of a file ended.
#[derive(Clone, Copy, Debug, PartialEq, Eq)]
pub enum End {
    /// So many bytes are at the path, and durable.
    Put(u64),
    /// The tree refuses it, and is as it was.
    Refused(Refusal),
    /// Memory was wanting for a name, and the tree is as it was.
    Memory,
    /// A call met a fault.
    Fault,
}
