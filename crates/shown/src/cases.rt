// Reading a case, the parts of its body, and what lent memory holds before a call.
ghost use Rattle.std.specs.Prelude.{◌≡◌, length, take, drop};
ghost use Rattle.shown.specs.Cases.{number_in, listed, filling, byte_modulus, number_modulus};

use number::{ReadU8, ReadU32};

// ---- the input

// The descriptor of the standard input.
const STDIN: i32 = 0;

// The places of the op and of the body's length.
const OP_PLACE: usize = 0;

const LEN_PLACE: usize = 1;

// The op is 0 where the input has ended.
#[derive(Drop)]
pub(crate) struct Head {
    pub(crate) op: u8,
    pub(crate) len: usize,
}

// The head of the next case of the input.
pub(crate) fn read_head() -> Head {
    let mut head = [0u8; 5];
    io::read_full(STDIN, &mut head);
    Head {
        op: byte_at(&head, OP_PLACE),
        len: word_at(&head, LEN_PLACE) as usize,
    }
}

// Whether `len` bytes of the input filled `body`; it is shorter where a case has a longer body than any may have.
pub(crate) fn read_body(body: &mut [u8], len: usize) -> bool {
    let got = io::read_full(STDIN, body);
    got == len
}

// ---- the numbers and the parts of a body

// The byte at a place; 0 where there is none.
pub(crate) fn byte_at(s: &[u8], at: usize) -> u8
    ensures { result ≡ number_in 1 s.now at }
{
    let read = number::read_u8(s, at);
    match read {
        ReadU8::Whole(value) => value,
        ReadU8::Truncated => 0,
    }
}

// The number of 4 bytes at a place; 0 where there are fewer.
pub(crate) fn word_at(s: &[u8], at: usize) -> u32
    ensures { result ≡ number_in 4 s.now at }
{
    let read = number::read_u32(s, at);
    match read {
        ReadU32::Whole(value) => value,
        ReadU32::Truncated => 0,
    }
}

// The first `len` bytes; all where there are fewer.
pub(crate) fn part<'a>(s: &'a [u8], len: usize) -> &'a [u8]
    ensures { result.now ≡ take len s.now }
{
    if len < s.len() {
        return &s[0..len];
    }
    s
}

// The same of bytes that are lent to be changed.
pub(crate) fn part_mut<'a>(s: &'a mut [u8], len: usize) -> &'a mut [u8]
    ensures { result.now ≡ take len s.old }
{
    if len < s.len() {
        return &mut s[0..len];
    }
    s
}

// The bytes behind the first `len`; none where there are fewer.
pub(crate) fn rest<'a>(s: &'a [u8], len: usize) -> &'a [u8]
    ensures { result.now ≡ drop len s.now }
{
    if len < s.len() {
        return &s[len..];
    }
    &s[0..0]
}

// ---- what lent memory holds before a call

// The number at `i` is `i * FILL_FACTOR + FILL_FIRST` modulo one of these: that of bytes, or that of numbers of 32 bits.
const FILL_FACTOR: usize = 7;

const FILL_FIRST: usize = 3;

const BYTE_MODULUS: usize = 251;

const NUMBER_MODULUS: usize = 0x1_0000_0000;

// Fills a lent buffer.
pub(crate) fn fill(s: &mut [u8])
    ensures { s.new ≡ listed (filling byte_modulus) (length s.old) }
{
    let mut i = 0;
    while i < s.len() {
        s[i] = fill_byte(i);
        i += 1;
    }
}

// Fills a list of lengths.
pub(crate) fn fill_lengths(lengths: &mut [u32])
    ensures { lengths.new ≡ listed (filling number_modulus) (length lengths.old) }
{
    let mut i = 0;
    while i < lengths.len() {
        lengths[i] = fill_number(i);
        i += 1;
    }
}

// The first remainder keeps the product from wrapping.
fn fill_byte(i: usize) -> u8
    ensures { result ≡ filling byte_modulus i }
{
    ((i % BYTE_MODULUS * FILL_FACTOR + FILL_FIRST) % BYTE_MODULUS) as u8
}

fn fill_number(i: usize) -> u32
    ensures { result ≡ filling number_modulus i }
{
    ((i % NUMBER_MODULUS * FILL_FACTOR + FILL_FIRST) % NUMBER_MODULUS) as u32
}
