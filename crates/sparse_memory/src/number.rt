//! Numbers in a slice of bytes, the lowest byte first.

ghost use Rattle.std.specs.Prelude.{◌≡◌, ℕ, ◌+◌, ◌<◌, ◌≤◌, ◌==◌, if◌then◌else◌, length, slice_index};
ghost use Rattle.a64_word.specs.Bytes.{number_at, low_bytes, written};

/// The number that two bytes spell.
#[inline(always)]
pub(crate) fn read_2(bytes: &[u8], at: usize) -> u16
    requires { at + 2 ≤ length bytes.now }
    ensures { result ≡ number_at (slice_index bytes.now) 2 at }
{
    u16::from_le_bytes([bytes[at], bytes[at + 1]])
}

/// The number that four bytes spell.
#[inline(always)]
pub(crate) fn read_4(bytes: &[u8], at: usize) -> u32
    requires { at + 4 ≤ length bytes.now }
    ensures { result ≡ number_at (slice_index bytes.now) 4 at }
{
    u32::from_le_bytes([bytes[at], bytes[at + 1], bytes[at + 2], bytes[at + 3]])
}

/// The number that eight bytes spell.
#[inline(always)]
pub(crate) fn read_8(bytes: &[u8], at: usize) -> u64
    requires { at + 8 ≤ length bytes.now }
    ensures { result ≡ number_at (slice_index bytes.now) 8 at }
{
    u64::from_le_bytes([
        bytes[at],
        bytes[at + 1],
        bytes[at + 2],
        bytes[at + 3],
        bytes[at + 4],
        bytes[at + 5],
        bytes[at + 6],
        bytes[at + 7],
    ])
}

/// Writes one byte.
#[inline(always)]
fn write_1(bytes: &mut [u8], at: usize, byte: u8)
    requires { at < length bytes.old }
    ensures length { length bytes.new ≡ length bytes.old }
    ensures bytes { (k : ℕ) → slice_index bytes.new k ≡ (if k == at then byte else slice_index bytes.old k) }
{
    bytes[at] = byte;
}

/// Writes a number of two bytes.
#[inline(always)]
pub(crate) fn write_2(bytes: &mut [u8], at: usize, value: u16)
    requires { at + 2 ≤ length bytes.old }
    ensures length { length bytes.new ≡ length bytes.old }
    ensures bytes { (k : ℕ) → slice_index bytes.new k ≡ written (slice_index bytes.old) at (low_bytes 2 value) k }
{
    write_1(bytes, at, (value % 256) as u8);
    let value = value / 256;
    write_1(bytes, at + 1, (value % 256) as u8);
}

/// Writes a number of four bytes.
#[inline(always)]
pub(crate) fn write_4(bytes: &mut [u8], at: usize, value: u32)
    requires { at + 4 ≤ length bytes.old }
    ensures length { length bytes.new ≡ length bytes.old }
    ensures bytes { (k : ℕ) → slice_index bytes.new k ≡ written (slice_index bytes.old) at (low_bytes 4 value) k }
{
    write_1(bytes, at, (value % 256) as u8);
    let value = value / 256;
    write_1(bytes, at + 1, (value % 256) as u8);
    let value = value / 256;
    write_1(bytes, at + 2, (value % 256) as u8);
    let value = value / 256;
    write_1(bytes, at + 3, (value % 256) as u8);
}

/// Writes a number of eight bytes.
#[inline(always)]
pub(crate) fn write_8(bytes: &mut [u8], at: usize, value: u64)
    requires { at + 8 ≤ length bytes.old }
    ensures length { length bytes.new ≡ length bytes.old }
    ensures bytes { (k : ℕ) → slice_index bytes.new k ≡ written (slice_index bytes.old) at (low_bytes 8 value) k }
{
    write_1(bytes, at, (value % 256) as u8);
    let value = value / 256;
    write_1(bytes, at + 1, (value % 256) as u8);
    let value = value / 256;
    write_1(bytes, at + 2, (value % 256) as u8);
    let value = value / 256;
    write_1(bytes, at + 3, (value % 256) as u8);
    let value = value / 256;
    write_1(bytes, at + 4, (value % 256) as u8);
    let value = value / 256;
    write_1(bytes, at + 5, (value % 256) as u8);
    let value = value / 256;
    write_1(bytes, at + 6, (value % 256) as u8);
    let value = value / 256;
    write_1(bytes, at + 7, (value % 256) as u8);
}
