// Big-endian numbers of 1, 4 and 8 bytes, read at a place of a message and stored at a place of a buffer, and the signed
// numbers that their bits are in two's complement.
#![tactic(auto)]

ghost use Rattle.std.specs.Prelude.{◌≡◌, [], ◌∷◌, ◌+◌, ◌≤◌, length, take, drop};
ghost use Rattle.number.specs.BigEndian.{be, be_after, bytes_of, number_at, overwritten, Stores};
ghost use Rattle.number.specs.TwosComplement.{signed_of, bits_of};
ghost use Rattle.number.specs.Answers.{found_u8, found_u32, found_u64};

// What reading a number of 1 byte finds.
#[derive(Drop)]
pub enum ReadU8 {
    // The number.
    Whole(u8),
    // Too few bytes for it.
    Truncated,
}

// What reading a number of 4 bytes finds.
#[derive(Drop)]
pub enum ReadU32 {
    // The number.
    Whole(u32),
    // Too few bytes for it.
    Truncated,
}

// What reading a number of 8 bytes finds.
#[derive(Drop)]
pub enum ReadU64 {
    // The number.
    Whole(u64),
    // Too few bytes for it.
    Truncated,
}

// The byte at `at`.
pub fn read_u8(s: &[u8], at: usize) -> ReadU8
    ensures { found_u8 result ≡ number_at 1 s.now at }
{
    if s.len() <= at {
        return ReadU8::Truncated;
    }
    ReadU8::Whole(s[at])
}

// The number in the 4 bytes from `at`. The subtraction keeps a place near the greatest usize from wrapping.
pub fn read_u32(s: &[u8], at: usize) -> ReadU32
    ensures { found_u32 result ≡ number_at 4 s.now at }
{
    let len = s.len();
    if len < 4 {
        return ReadU32::Truncated;
    }
    if len - 4 < at {
        return ReadU32::Truncated;
    }
    ReadU32::Whole(load_u32(s, at))
}

// The number in the 8 bytes from `at`.
pub fn read_u64(s: &[u8], at: usize) -> ReadU64
    ensures { found_u64 result ≡ number_at 8 s.now at }
{
    let len = s.len();
    if len < 8 {
        return ReadU64::Truncated;
    }
    if len - 8 < at {
        return ReadU64::Truncated;
    }
    ReadU64::Whole(load_u64(s, at))
}

// Asks that the 4 bytes from `at` lie inside `s`: `read_u32` has tested it.
fn load_u32(s: &[u8], at: usize) -> u32
    requires { at + 4 ≤ length s.now }
    ensures { result ≡ be (take 4 (drop at s.now)) }
{
    join4(s[at], s[at + 1], s[at + 2], s[at + 3])
}

// Asks that the 8 bytes from `at` lie inside `s`: `read_u64` has tested it.
fn load_u64(s: &[u8], at: usize) -> u64
    requires { at + 8 ≤ length s.now }
    ensures { result ≡ be (take 8 (drop at s.now)) }
{
    join8(
        s[at],
        s[at + 1],
        s[at + 2],
        s[at + 3],
        s[at + 4],
        s[at + 5],
        s[at + 6],
        s[at + 7],
    )
}

// The number that 4 bytes are, the most significant first. Compiled, it is one load and a byte swap.
fn join4(a: u8, b: u8, c: u8, d: u8) -> u32
    ensures { result ≡ be_after 0 (a ∷ b ∷ c ∷ d ∷ []) }
{
    ((a as u32 * 256 + b as u32) * 256 + c as u32) * 256 + d as u32
}

fn join8(a: u8, b: u8, c: u8, d: u8, e: u8, f: u8, g: u8, h: u8) -> u64
    ensures { result ≡ be_after 0 (a ∷ b ∷ c ∷ d ∷ e ∷ f ∷ g ∷ h ∷ []) }
{
    ((((((a as u64 * 256 + b as u64) * 256 + c as u64) * 256 + d as u64) * 256 + e as u64) * 256
        + f as u64)
        * 256
        + g as u64)
        * 256
        + h as u64
}

// `x` in the byte at `at`: true where it was stored. Where it does not fit, nothing is stored.
pub fn store_u8(out: &mut [u8], at: usize, x: u8) -> bool
    ensures { Stores 1 out.old at x out.new result }
{
    if out.len() <= at {
        return false;
    }
    set_u8(out, at, x);
    true
}

// `x` in the 4 bytes from `at`.
pub fn store_u32(out: &mut [u8], at: usize, x: u32) -> bool
    ensures { Stores 4 out.old at x out.new result }
{
    let room = out.len();
    if room < 4 {
        return false;
    }
    if room - 4 < at {
        return false;
    }
    set_u32(out, at, x);
    true
}

// `x` in the 8 bytes from `at`.
pub fn store_u64(out: &mut [u8], at: usize, x: u64) -> bool
    ensures { Stores 8 out.old at x out.new result }
{
    let room = out.len();
    if room < 8 {
        return false;
    }
    if room - 8 < at {
        return false;
    }
    set_u64(out, at, x);
    true
}

// The stores themselves. Each asks for its room, which the function above it has tested.
fn set_u8(out: &mut [u8], at: usize, x: u8)
    requires { at + 1 ≤ length out.old }
    ensures { out.new ≡ overwritten out.old at (bytes_of 1 x) }
{
    out[at] = x;
}

fn set_u32(out: &mut [u8], at: usize, x: u32)
    requires { at + 4 ≤ length out.old }
    ensures { out.new ≡ overwritten out.old at (bytes_of 4 x) }
{
    out[at] = (x / 0x100_0000 % 256) as u8;
    out[at + 1] = (x / 0x1_0000 % 256) as u8;
    out[at + 2] = (x / 0x100 % 256) as u8;
    out[at + 3] = (x / 1 % 256) as u8;
}

fn set_u64(out: &mut [u8], at: usize, x: u64)
    requires { at + 8 ≤ length out.old }
    ensures { out.new ≡ overwritten out.old at (bytes_of 8 x) }
{
    out[at] = (x / 0x100_0000_0000_0000 % 256) as u8;
    out[at + 1] = (x / 0x1_0000_0000_0000 % 256) as u8;
    out[at + 2] = (x / 0x100_0000_0000 % 256) as u8;
    out[at + 3] = (x / 0x1_0000_0000 % 256) as u8;
    out[at + 4] = (x / 0x100_0000 % 256) as u8;
    out[at + 5] = (x / 0x1_0000 % 256) as u8;
    out[at + 6] = (x / 0x100 % 256) as u8;
    out[at + 7] = (x / 1 % 256) as u8;
}

// The signed number that the bits are. The upper half is lowered in two steps, neither of which leaves the type.
pub fn i8_of_bits(bits: u8) -> i8
    ensures { result ≡ signed_of 1 bits }
{
    if bits < 0x80 {
        bits as i8
    } else {
        (bits - 0x80) as i8 + (-0x80)
    }
}

// The same of 4 bytes.
pub fn i32_of_bits(bits: u32) -> i32
    ensures { result ≡ signed_of 4 bits }
{
    if bits < 0x8000_0000 {
        bits as i32
    } else {
        (bits - 0x8000_0000) as i32 + (-0x8000_0000)
    }
}

// The bits of a signed number.
pub fn bits_of_i8(x: i8) -> u8
    ensures { result ≡ bits_of 1 x }
{
    if x < 0 {
        (x - (-0x80)) as u8 + 0x80
    } else {
        x as u8
    }
}

// The same of 4 bytes.
pub fn bits_of_i32(x: i32) -> u32
    ensures { result ≡ bits_of 4 x }
{
    if x < 0 {
        (x - (-0x8000_0000)) as u32 + 0x8000_0000
    } else {
        x as u32
    }
}
