//! A page in memory, to be filled by a read of a medium or to be programmed.
ghost use Rattle.std.specs.Prelude.{◌≡◌, ◌≤◌, ◌+◌, ◌-◌, ◌++◌, length, take, drop, IfOk};
ghost use Rattle.nl_field.specs.Bytes.{zeros};
ghost use Rattle.nl_field.specs.Page.{PageBytes};

use crate::Memory;
use crate::numbers::{pad, zero};
use std::alloc::Global;
use std::marker::Model;

const MAIN: usize = 4096;

const SPARE: usize = 64;

/// A page in memory: 4096 main bytes and 64 spare bytes.
#[derive(Debug, Drop)]
pub struct PageBuf {
    main: Vec<u8>,
    spare: [u8; 64],
}

impl Model for PageBuf {
    ghost use Rattle.std.specs.Prelude.{◌≡◌, length};
    ghost use Rattle.nl_field.specs.Page.{PageBytes};

    ghost Value = { PageBytes };

    ghost view = { λ p. record { main = p.main.items; spare = p.spare } };

    ghost invariant = { λ p. length p.main.items ≡ 4096 };
}

impl PageBuf {
    /// A page of zeros.
    pub fn new(alloc: Global) -> Result<PageBuf, Memory>
        ensures main { IfOk result (λ p. p.main ≡ zeros 4096) }
        ensures spare { IfOk result (λ p. p.spare ≡ zeros 64) }
    {
        let main = zeroed(alloc, MAIN)?;
        let mut spare = [0u8; SPARE];
        zero(&mut spare);
        Ok(PageBuf { main, spare })
    }

    /// The 4096 main bytes.
    pub fn main(&self) -> &[u8]
        ensures bytes { result.now ≡ self.now.main }
        ensures len { length result.now ≡ 4096 }
    {
        &self.main
    }

    /// The 64 spare bytes.
    pub fn spare(&self) -> &[u8; 64]
        ensures { result.now ≡ self.now.spare }
    {
        &self.spare
    }

    /// Puts these bytes over the main bytes from an offset on.
    pub fn set_main(&mut self, at: usize, bytes: &[u8])
        requires { at + length bytes.now ≤ 4096 }
        ensures main { self.new.main ≡ take at self.old.main ++ bytes.now ++ drop (at + length bytes.now) self.old.main }
        ensures spare { self.new.spare ≡ self.old.spare }
    {
        self.main[at..at + bytes.len()].copy_from_slice(bytes);
    }

    /// These main bytes, and zeros behind them.
    pub fn set_head(&mut self, bytes: &[u8])
        requires { length bytes.now ≤ 4096 }
        ensures main { self.new.main ≡ bytes.now ++ zeros (4096 - length bytes.now) }
        ensures spare { self.new.spare ≡ self.old.spare }
    {
        pad(&mut self.main, bytes);
    }

    /// Replaces all spare bytes. The main bytes stay.
    pub fn set_spare(&mut self, bytes: &[u8; 64])
        ensures main { self.new.main ≡ self.old.main }
        ensures spare { self.new.spare ≡ bytes.now }
    {
        self.spare = *bytes;
    }

    /// Zeros everywhere.
    pub fn clear(&mut self)
        ensures main { self.new.main ≡ zeros 4096 }
        ensures spare { self.new.spare ≡ zeros 64 }
    {
        zero(&mut self.main);
        zero(&mut self.spare);
    }

    /// Becomes the same page.
    pub fn copy_from(&mut self, from: &PageBuf)
        ensures { self.new ≡ from.now }
    {
        self.main.copy_from_slice(&from.main);
        self.spare = from.spare;
    }
}

#[tactic(auto, unfolding(crate::specs::Bytes::zeros))]
fn zeroed(alloc: Global, count: usize) -> Result<Vec<u8>, Memory>
    ensures zeros { IfOk result (λ v. v.items ≡ zeros count) }
    ensures len { IfOk result (λ v. length v.items ≡ count) }
{
    Ok(vec![in alloc; 0u8; count]?)
}
