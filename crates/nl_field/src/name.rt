//! A name in a directory, without memory of its own.
ghost use Rattle.std.specs.Prelude.{◌≡◌, ◌↔◌, ◌≤◌, ◌&&◌, nat_le, length, IsTrue, IsSome, IfSome};
ghost use Rattle.nl_field.specs.Numbers.{max_name};
ghost use Rattle.nl_field.specs.Names.{is_name, is_name_byte};
ghost use Rattle.std.specs.List.{list_all};

use crate::limits::MAX_NAME;
use std::marker::Model;

/// The bytes of a name of at most 55 bytes, held in itself.
#[derive(Debug, Drop)]
pub struct Name {
    items: [u8; MAX_NAME],
    len: u8,
}

impl Model for Name {
    ghost use Rattle.std.specs.Prelude.{List, ℕ, ◌≤◌, take, IsTrue};
    ghost use Rattle.nl_field.specs.Names.{is_name};

    ghost Value = { List ℕ };

    ghost view = { λ n. take n.len n.items };

    ghost invariant = { λ n. (n.len ≤ 55) × IsTrue (is_name (take n.len n.items)) };
}

impl Name {
    /// The name of these bytes, None exactly where they are none: a name has 1 to 55 bytes, no control byte, space, DEL or
    /// `/`, and is neither `.` nor `..`. It takes no memory.
    pub fn of(bytes: &[u8]) -> Option<Name>
        ensures value { IfSome result (λ name. name ≡ bytes.now) }
        ensures named { IsSome result ↔ IsTrue (is_name bytes.now && nat_le (length bytes.now) max_name) }
    {
        if bytes.len() > MAX_NAME || !is_named(bytes) {
            return None;
        }
        let mut items = [0; MAX_NAME];
        items[..bytes.len()].copy_from_slice(bytes);
        Some(Name {
            items,
            len: bytes.len() as u8,
        })
    }

    /// The bytes of the name, at most 55.
    pub fn bytes(&self) -> &[u8]
        ensures value { result.now ≡ self.now }
        ensures named { IsTrue (is_name self.now) }
        ensures most { length self.now ≤ 55 }
    {
        &self.items[..self.len as usize]
    }
}

#[tactic(auto, unfolding(crate::specs::Names::is_name))]
fn is_named(bytes: &[u8]) -> bool
    ensures { result ≡ is_name bytes.now }
{
    !bytes.is_empty()
        && have_name_bytes(bytes)
        && bytes != b".".as_slice()
        && bytes != b"..".as_slice()
}

fn have_name_bytes(bytes: &[u8]) -> bool
    ensures { result ≡ list_all is_name_byte bytes.now }
{
    for byte in bytes {
        if *byte < 33 || *byte == 127 || *byte == b'/' {
            return false;
        }
    }
    true
}
