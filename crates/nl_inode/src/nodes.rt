//! The records of nodes in the running pages, and which nodes and which addresses of the pool are free.
ghost use Rattle.std.specs.Prelude.{◌≡◌, ◌<◌, ◌≤◌, ◌+◌, ◌/◌, ◌%◌, ℕ, IfOk, IsSome, IsTrue, MatchOption, Some, true, false, length};
ghost use Rattle.nl_field.specs.Inode.{inode_bytes, inode_of, is_inode};
ghost use Rattle.nl_field.specs.Numbers.{ShapeBounds};
ghost use Rattle.nl_meta.specs.Nodes.{inode_at};
ghost use Rattle.nl_meta.specs.Pages.{has_room, page_of};
ghost use Rattle.nl_meta.specs.SlotLaws.{with_slot};
ghost use Rattle.nl_inode.specs.Free.{IsLeastFreeNumber, NoneFree, count_free};
ghost use Rattle.nl_inode.specs.Nodes.{AddressBecomes, IsLeastAddress, NodeBecomes, PutsNode, is_free_address, is_free_node, page_of_node, taken_as};

use crate::free_set::FreeSet;
use nl_field::{InodeRec, Kind, Memory, PageBuf, Pointer, Shape};
use nl_meta::Meta;
use std::alloc::Global;
use std::marker::Model;

/// Which nodes and which addresses of the pool are free. Their records stand in the running pages.
#[derive(Drop)]
pub struct Nodes {
    nodes: FreeSet,
    pool: FreeSet,
    first: u32,
}

impl Model for Nodes {
    ghost use Rattle.std.specs.Prelude.{◌+◌, ◌<◌, ◌^◌, length};
    ghost use Rattle.nl_inode.specs.Nodes.{Spaces};

    ghost Value = { Spaces };

    ghost view = { λ s. record { nodes = s.nodes; first = s.first; pool = s.pool } };

    ghost invariant = { λ s. s.first + length s.pool < 2 ^ 32 };
}

impl Nodes {
    /// All nodes and all addresses of the pool, each of which is free.
    pub fn new(alloc: Global, shape: Shape) -> Result<Nodes, Memory>
        requires { ShapeBounds shape }
        ensures nodes { IfOk result (λ s. length s.nodes ≡ shape.nodes) }
        ensures first { IfOk result (λ s. s.first ≡ 67 + shape.inode_pages) }
        ensures pool { IfOk result (λ s. s.first + length s.pool ≡ shape.vaddrs) }
        ensures free { IfOk result (λ s. (n : ℕ) → n < shape.nodes → is_free_node s n ≡ true) }
        ensures free_pool { IfOk result (λ s. (a : ℕ) → s.first ≤ a → a < shape.vaddrs → is_free_address s a ≡ true) }
    {
        let nodes = FreeSet::new(alloc, shape.nodes)?;
        let pool = FreeSet::new(alloc, shape.meta)?;
        Ok(Nodes {
            nodes,
            pool,
            first: 67 + shape.inode_pages,
        })
    }

    /// The record of a node, whose page is resident and spells it.
    pub fn get(&self, meta: &Meta, ino: u32) -> InodeRec
        requires there { IsSome (page_of meta.now (page_of_node ino)) }
        requires spelled { IsSome (inode_at (page_of meta.now) ino) }
        ensures { inode_at (page_of meta.now) ino ≡ Some result }
    {
        InodeRec::spelled_at(meta.page(67 + ino / 16), 256 * (ino % 16))
    }

    /// Gives a node this record, which has a spelling; its page is resident. False, and nothing changed, exactly where that page
    /// cannot be made dirty.
    pub fn put(&mut self, meta: &mut Meta, ino: u32, rec: &InodeRec) -> bool
        requires there { IsSome (page_of meta.old (page_of_node ino)) }
        requires spelled { IsTrue (is_inode rec.now) }
        ensures room { result ≡ has_room meta.old (page_of_node ino) }
        ensures done { result ≡ true → PutsNode ino rec.now meta.old meta.new }
        ensures refused { result ≡ false → meta.new ≡ meta.old }
        ensures spaces { self.new ≡ self.old }
    {
        match meta.page_mut(67 + ino / 16) {
            Some(page) => {
                write(page, ino, rec);
                true
            }
            None => false,
        }
    }

    /// Takes the least free node. None exactly where none is free.
    pub fn take_node(&mut self) -> Option<u32>
        ensures least { MatchOption result (NoneFree self.old.nodes) (λ n. IsLeastFreeNumber n self.old.nodes) }
        ensures taken { MatchOption result (self.new ≡ self.old) (λ n. NodeBecomes n false self.old self.new) }
    {
        self.nodes.take()
    }

    /// Takes the least free address of the pool. None exactly where none is free.
    pub fn take_pool(&mut self) -> Option<u32>
        ensures least { MatchOption result (NoneFree self.old.pool) (λ a. IsLeastAddress a self.old) }
        ensures taken { MatchOption result (self.new ≡ self.old) (λ a. AddressBecomes a false self.old self.new) }
    {
        match self.pool.take() {
            Some(k) => Some(self.first + k),
            None => None,
        }
    }

    /// How many nodes are free.
    pub fn free_nodes(&self) -> u32
        ensures { result ≡ count_free self.now.nodes }
    {
        self.nodes.free()
    }

    /// How many addresses of the pool are free.
    pub fn free_pool(&self) -> u32
        ensures { result ≡ count_free self.now.pool }
    {
        self.pool.free()
    }

    /// A node is free from now on.
    pub fn give_node(&mut self, ino: u32)
        requires { ino < length self.old.nodes }
        ensures { NodeBecomes ino true self.old self.new }
    {
        self.nodes.put(ino, true);
    }

    /// An address of the pool is free from now on.
    pub fn give_pool(&mut self, vaddr: u32)
        requires from_pool { self.old.first ≤ vaddr }
        requires in_pool { vaddr < self.old.first + length self.old.pool }
        ensures { AddressBecomes vaddr true self.old self.new }
    {
        self.pool.put(vaddr - self.first, true);
    }

    /// A node is in use from now on, as an opening finds it.
    pub fn use_node(&mut self, ino: u32)
        requires { ino < length self.old.nodes }
        ensures { NodeBecomes ino false self.old self.new }
    {
        self.nodes.put(ino, false);
    }

    /// An address of the pool is in use from now on, as an opening finds it.
    pub fn use_pool(&mut self, vaddr: u32)
        requires from_pool { self.old.first ≤ vaddr }
        requires in_pool { vaddr < self.old.first + length self.old.pool }
        ensures { AddressBecomes vaddr false self.old self.new }
    {
        self.pool.put(vaddr - self.first, false);
    }
}

// Writes a node's record into its page.
fn write(page: &mut PageBuf, ino: u32, rec: &InodeRec)
    requires { IsTrue (is_inode rec.now) }
    ensures main { page.new.main ≡ with_slot 256 (ino % 16) (inode_bytes rec.now) page.old.main }
    ensures width { length (inode_bytes rec.now) ≡ 256 }
    ensures whole { length page.old.main ≡ 4096 }
    ensures back { inode_of (inode_bytes rec.now) ≡ Some rec.now }
{
    let _before = page.main().len();
    rec.into_page(page, 256 * (ino % 16));
    let _after = page.main().len();
}

/// The record of a node as it is taken that had this generation.
pub fn taken(kind: Kind, generation: u32) -> InodeRec
    ensures { result ≡ taken_as kind generation }
{
    InodeRec {
        kind,
        generation: generation.wrapping_add(1),
        size: 0,
        direct: [Pointer { name: 0, stamp: 0 }; 8],
        addresses: [0; 16],
    }
}
