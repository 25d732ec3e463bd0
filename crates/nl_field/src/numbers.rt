//! Numbers, pointers and zeros in bytes.
ghost use Rattle.std.specs.Prelude.{◌≡◌, ◌≤◌, ◌+◌, ◌-◌, ◌*◌, ◌++◌, length, take, drop, flat_map, bytes_eq, IsTrue};
ghost use Rattle.std.specs.List.{list_all};
ghost use Rattle.nl_field.specs.Bytes.{zeros, all_zero};
ghost use Rattle.nl_field.specs.Spelling.{u32_bytes, u64_bytes, u32_at, u64_at, u32s, fits_u32};
ghost use Rattle.nl_field.specs.Pointers.{pointer_bytes, pointers, pointer_fields, fits_pointer};

use crate::Pointer;
use byteorder::{ByteOrder, LittleEndian};

/// The number in the 4 bytes from an offset on.
#[tactic(auto, unfolding(crate::specs::Spelling::u32_at))]
pub fn u32_from(bytes: &[u8], at: usize) -> u32
    requires { at + 4 ≤ length bytes.now }
    ensures { result ≡ u32_at bytes.now at }
{
    LittleEndian::read_u32(&bytes[at..])
}

/// The number in the 8 bytes from an offset on.
#[tactic(auto, unfolding(crate::specs::Spelling::u64_at))]
pub fn u64_from(bytes: &[u8], at: usize) -> u64
    requires { at + 8 ≤ length bytes.now }
    ensures { result ≡ u64_at bytes.now at }
{
    LittleEndian::read_u64(&bytes[at..])
}

/// Puts a number into the 4 bytes from an offset on.
#[tactic(auto, unfolding(crate::specs::Spelling::u32_bytes))]
pub fn put_u32(out: &mut [u8], at: usize, n: u32)
    requires { at + 4 ≤ length out.old }
    ensures { out.new ≡ take at out.old ++ u32_bytes n ++ drop (at + 4) out.old }
{
    LittleEndian::write_u32(&mut out[at..], n);
}

/// Puts a number into the 8 bytes from an offset on.
#[tactic(auto, unfolding(crate::specs::Spelling::u64_bytes))]
pub fn put_u64(out: &mut [u8], at: usize, n: u64)
    requires { at + 8 ≤ length out.old }
    ensures { out.new ≡ take at out.old ++ u64_bytes n ++ drop (at + 8) out.old }
{
    LittleEndian::write_u64(&mut out[at..], n);
}

/// Puts numbers of 4 bytes each into the bytes from an offset on.
#[tactic(auto, unfolding(crate::specs::Spelling::u32_bytes))]
pub fn put_u32s(out: &mut [u8], at: usize, numbers: &[u32])
    requires { at + 4 * length numbers.now ≤ length out.old }
    ensures bytes { out.new ≡ take at out.old ++ flat_map u32_bytes numbers.now ++ drop (at + 4 * length numbers.now) out.old }
    ensures fits { IsTrue (list_all fits_u32 numbers.now) }
{
    let end = at + 4 * numbers.len();
    LittleEndian::write_u32_into(numbers, &mut out[at..end]);
}

/// The numbers of 4 bytes each that stand in these bytes.
pub fn u32s_from(bytes: &[u8], numbers: &mut [u32])
    requires { length bytes.now ≡ 4 * length numbers.old }
    ensures { numbers.new ≡ u32s (length numbers.old) bytes.now }
{
    LittleEndian::read_u32_into(bytes, numbers);
}

/// The pointer in 16 bytes, whether they spell one or not.
#[tactic(auto, unfolding(crate::specs::Pointers::pointer_fields))]
pub fn pointer_from(bytes: &[u8]) -> Pointer
    requires { 16 ≤ length bytes.now }
    ensures { result ≡ pointer_fields bytes.now }
{
    Pointer {
        name: u32_from(bytes, 0),
        stamp: u64_from(bytes, 8),
    }
}

/// Puts a pointer into the first 16 bytes.
pub fn put_pointer(out: &mut [u8], pointer: &Pointer)
    requires { 16 ≤ length out.old }
    ensures bytes { out.new ≡ pointer_bytes pointer.now ++ drop 16 out.old }
    ensures fits { IsTrue (fits_pointer pointer.now) }
{
    let Pointer { name, stamp } = *pointer;
    put_u32(out, 0, name);
    put_u32(out, 4, 0);
    put_u64(out, 8, stamp);
}

/// Puts pointers of 16 bytes each into the bytes from an offset on.
pub fn put_pointers(out: &mut [u8], at: usize, from: &[Pointer])
    requires { at + 16 * length from.now ≤ length out.old }
    ensures bytes { out.new ≡ take at out.old ++ flat_map pointer_bytes from.now ++ drop (at + 16 * length from.now) out.old }
    ensures fits { IsTrue (list_all fits_pointer from.now) }
{
    let end = at + 16 * from.len();
    fill_pointers(&mut out[at..end], from);
}

fn fill_pointers(out: &mut [u8], from: &[Pointer])
    requires { length out.old ≡ 16 * length from.now }
    ensures bytes { out.new ≡ flat_map pointer_bytes from.now }
    ensures fits { IsTrue (list_all fits_pointer from.now) }
{
    for i in 0..from.len() {
        put_pointer(&mut out[16 * i..], &from[i]);
    }
}

/// The pointers of 16 bytes each that stand first in these bytes.
pub fn pointers_from(bytes: &[u8], into: &mut [Pointer])
    requires { 16 * length into.old ≤ length bytes.now }
    ensures { into.new ≡ pointers (length into.old) bytes.now }
{
    for i in 0..into.len() {
        into[i] = pointer_from(&bytes[16 * i..]);
    }
}

/// Zeros everywhere.
#[tactic(auto, unfolding(crate::specs::Bytes::zeros))]
pub fn zero(bytes: &mut [u8])
    ensures { bytes.new ≡ zeros (length bytes.old) }
{
    bytes.fill(0);
}

/// Puts bytes, and zeros behind them.
pub fn pad(out: &mut [u8], bytes: &[u8])
    requires { length bytes.now ≤ length out.old }
    ensures { out.new ≡ bytes.now ++ zeros (length out.old - length bytes.now) }
{
    out[..bytes.len()].copy_from_slice(bytes);
    zero(&mut out[bytes.len()..]);
}

/// Whether the bytes are these and then zeros.
pub fn is_padded(bytes: &[u8], head: &[u8]) -> bool
    requires { length head.now ≤ length bytes.now }
    ensures { result ≡ bytes_eq (head.now ++ zeros (length bytes.now - length head.now)) bytes.now }
{
    &bytes[..head.len()] == head && is_zero(&bytes[head.len()..])
}

/// Whether there is no byte but 0.
pub fn is_zero(bytes: &[u8]) -> bool
    ensures { result ≡ all_zero bytes.now }
{
    for byte in bytes {
        if *byte != 0 {
            return false;
        }
    }
    true
}
