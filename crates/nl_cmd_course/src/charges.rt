/// What a tree takes of its volume: pages of files, nodes, and pages of entries and of pointers.
#[derive(Clone, Copy, Debug, PartialEq, Eq)]
pub struct Charges {
    pub pages: u64,
    pub nodes: u32,
    pub meta: u32,
}
