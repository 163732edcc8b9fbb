// Numbers and marks in the bytes of a stream: numbers stand low byte first, records begin with a fixed two-byte string.
// And the bytes of an input, read into a slice.
#![tactic(auto)]

ghost use Rattle.std.specs.Prelude.{◌≡◌, ◌+◌, ◌≤◌, ◌<◌, length};
ghost use Rattle.std.proofs.lemmas.List.Edits.{sets};
ghost use Rattle.stream_bytes.specs.Bytes.{number2, number4, float4, marked, bytes2, bytes4};

use floats::from_bits;
use std::io::Read;

// The number of two bytes, low byte first.
pub fn read_u16(bytes: &[u8], at: usize) -> u16
    requires { at + 2 ≤ length bytes.now }
    ensures { result ≡ number2 bytes.now at }
{
    u16::from_le_bytes([bytes[at], bytes[at + 1]])
}

// The number of four bytes, low byte first.
pub fn read_u32(bytes: &[u8], at: usize) -> u32
    requires { at + 4 ≤ length bytes.now }
    ensures { result ≡ number4 bytes.now at }
{
    u32::from_le_bytes([bytes[at], bytes[at + 1], bytes[at + 2], bytes[at + 3]])
}

// Returns the float whose bits are the four bytes at a place.
pub fn read_f32(bytes: &[u8], at: usize) -> f32
    requires { at + 4 ≤ length bytes.now }
    ensures { result ≡ float4 bytes.now at }
{
    from_bits(read_u32(bytes, at))
}

// Whether the record at a place begins with a mark.
pub fn has_mark(bytes: &[u8], at: usize, mark: &[u8; 2]) -> bool
    requires { length mark.now ≡ 2 }
    ensures { result ≡ marked bytes.now at mark.now }
{
    match bytes.get(at..) {
        Some(rest) => rest.starts_with(mark),
        None => false,
    }
}

// Writes a number in two bytes at a place.
pub fn put_u16(out: &mut [u8], at: usize, x: u16)
    requires { at + 2 ≤ length out.old }
    ensures { out.new ≡ sets out.old at (bytes2 x) }
{
    out[at..at + 2].copy_from_slice(&x.to_le_bytes());
}

// Writes a number in four bytes at a place.
pub fn put_u32(out: &mut [u8], at: usize, x: u32)
    requires { at + 4 ≤ length out.old }
    ensures { out.new ≡ sets out.old at (bytes4 x) }
{
    out[at..at + 4].copy_from_slice(&x.to_le_bytes());
}

// Writes the mark of a record at a place.
pub fn put_mark(out: &mut [u8], at: usize, mark: &[u8; 2])
    requires mark_len { length mark.now ≡ 2 }
    requires at_in_bounds { at + 2 ≤ length out.old }
    ensures { out.new ≡ sets out.old at mark.now }
{
    out[at..at + 2].copy_from_slice(mark);
}

// Reads until buf is full, the input ends or a read fails. Returns how many bytes it put at the start of buf.
pub fn read_full<R: Read>(input: &mut R, buf: &mut [u8]) -> usize
    ensures { result ≤ length buf.new }
{
    let mut done = 0;
    // A `while`: how many bytes a read gives is not known before.
    while done < buf.len() {
        match input.read(&mut buf[done..]) {
            Ok(n) if n > 0 => done += n,
            _ => break,
        }
    }
    done
}
