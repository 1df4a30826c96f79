// Bytes and little-endian numbers of any list of bytes: total readers, and a row put into a buffer.
#![tactic(auto)]

ghost use Rattle.std.specs.Prelude.{◌≡◌};
ghost use Rattle.file.specs.Bytes.{byte_at, two_at, four_at, two, four, zeros, put_at};

// The byte at a place, 0 past the end.
pub fn byte(s: &[u8], at: usize) -> u8
    ensures { result ≡ byte_at s.now at }
{
    s.get(at).copied().unwrap_or(0)
}

// The place of a number is narrower than the sums on it, so that none can wrap.
pub fn two_at(s: &[u8], at: u32) -> u16
    ensures { result ≡ two_at s.now at }
{
    let i = at as usize;
    u16::from_le_bytes([byte(s, i), byte(s, i + 1)])
}

pub fn four_at(s: &[u8], at: u16) -> u32
    ensures { result ≡ four_at s.now at }
{
    let i = at as usize;
    u32::from_le_bytes([byte(s, i), byte(s, i + 1), byte(s, i + 2), byte(s, i + 3)])
}

// A number as two bytes and as four, the least first.
pub fn two(n: u16) -> [u8; 2]
    ensures { result ≡ two n }
{
    n.to_le_bytes()
}

pub fn four(m: u32) -> [u8; 4]
    ensures { result ≡ four m }
{
    m.to_le_bytes()
}

// Puts a row of bytes into a buffer from a place on, as far as that has room.
pub fn put(buffer: &mut [u8], at: u16, row: &[u8])
    ensures { buffer.new ≡ put_at at row.now buffer.old }
{
    let start = at as usize;
    if start < buffer.len() {
        let count = row.len().min(buffer.len() - start);
        buffer[start..start + count].copy_from_slice(&row[..count]);
    }
}

// The bytes from the first to the last place are zero.
pub fn are_zeros(s: &[u8], first: u16, last: u16) -> bool
    ensures { result ≡ zeros s.now first last }
{
    for i in first..=last {
        if byte(s, i as usize) != 0 {
            return false;
        }
    }
    true
}
