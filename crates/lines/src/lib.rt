// Text in lines, added at a cursor of a lent buffer: numbers in decimal, and lines of names and numbers. Each function adds all of its
// text or none: the room for the whole is tested before the first byte is stored.
#![tactic(auto)]

ghost use Rattle.std.specs.Prelude.{[], ◌∷◌, ◌++◌, ◌+◌, ◌≤◌};
ghost use Rattle.text.specs.Ascii.{ascii};
ghost use Rattle.layout.specs.Writing.{bit};
ghost use Rattle.field_writer.specs.Stored.{Put, Room};
ghost use Rattle.lines.specs.Lines.{decimal, most_digits, integer, line_text, entry, entries_text, time_text, Begins};

use wire::{Cursor, Refusal, Timestamp};

// The most digits of a u64.
const MOST_DIGITS: usize = 20;

// The most bytes of an i32 in decimal: ten digits and a sign.
const LONGEST_INTEGER: usize = 11;

// The bytes beside a name and its value: a space between them, and one byte behind them.
const MARKS: usize = 2;

// Puts the digits of a number at the start of `out`, and answers how many there are.
fn digits_of(n: u64, out: &mut [u8; MOST_DIGITS]) -> usize
    ensures begins { Begins out.new (decimal n) result }
    ensures upper_bound { result ≤ most_digits }
{
    io::decimal(n, out)
}

// A number in decimal. As every function here it stores the whole text or nothing. Refuses 7.
pub fn put_decimal(out: &mut [u8], c: Cursor, n: u64) -> Cursor
    ensures { Put out.old c (decimal n) out.new result }
{
    let mut digits = [0u8; MOST_DIGITS];
    let len = digits_of(n, &mut digits);
    field_writer::put_all(out, c, &digits[..len])
}

// A number with its sign, where it is negative. The magnitude is taken from the bits, so that the least number has one too.
// Refuses 7.
pub fn put_integer(out: &mut [u8], c: Cursor, x: i32) -> Cursor
    ensures { Put out.old c (integer x) out.new result }
{
    let bits = number::bits_of_i32(x) as u64;
    if x < 0 {
        return put_negative(out, c, 0x1_0000_0000 - bits);
    }
    put_decimal(out, c, bits)
}

// A sign, and the magnitude behind it.
fn put_negative(out: &mut [u8], c: Cursor, magnitude: u64) -> Cursor
    ensures { Put out.old c (ascii "-" ++ decimal magnitude) out.new result }
{
    let mut digits = [0u8; MOST_DIGITS];
    let len = digits_of(magnitude, &mut digits);
    let start = field_writer::room(c, 1 + len, out.len());
    let behind_sign = field_writer::put_all(out, start, b"-");
    field_writer::put_all(out, behind_sign, &digits[..len])
}

// A line of a name and a number. Refuses 7.
pub fn put_number(out: &mut [u8], c: Cursor, name: &[u8], n: u64) -> Cursor
    ensures { Put out.old c (line_text (name.now ∷ decimal n ∷ [])) out.new result }
{
    let mut value = [0u8; MOST_DIGITS];
    let len = digits_of(n, &mut value);
    put_entry(out, c, name, &value[..len], b'\n')
}

// The same with a sign, where the number is negative. It is spelled in an array of its own, which has room for each.
// Refuses 7.
pub fn put_signed(out: &mut [u8], c: Cursor, name: &[u8], x: i32) -> Cursor
    ensures { Put out.old c (line_text (name.now ∷ integer x ∷ [])) out.new result }
{
    let mut value = [0u8; LONGEST_INTEGER];
    let behind_value = put_integer(&mut value, Cursor::START, x);
    let len = behind_value.at;
    put_entry(out, c, name, &value[..len], b'\n')
}

// The same with a bool: true is 1. Refuses 7.
pub fn put_flag(out: &mut [u8], c: Cursor, name: &[u8], x: bool) -> Cursor
    ensures { Put out.old c (line_text (name.now ∷ decimal (bit x) ∷ [])) out.new result }
{
    if x {
        put_number(out, c, name, 1)
    } else {
        put_number(out, c, name, 0)
    }
}

// A timestamp: two lines, its seconds and its nanoseconds. Refuses 7.
pub fn put_time(out: &mut [u8], c: Cursor, seconds: &[u8], nsec: &[u8], time: Timestamp) -> Cursor
    ensures { Put out.old c (time_text seconds.now nsec.now time) out.new result }
{
    put_entries(out, c, seconds, time.seconds, b'\n', nsec, time.nsec as u64)
}

// A line of two words, each with a number behind it. Refuses 7.
pub fn put_pair(out: &mut [u8], c: Cursor, first: &[u8], a: u64, second: &[u8], b: u64) -> Cursor
    ensures { Put out.old c (line_text (first.now ∷ decimal a ∷ second.now ∷ decimal b ∷ [])) out.new result }
{
    put_entries(out, c, first, a, b' ', second, b)
}

// Two names, each with a number behind it: `between` stands behind the first number, a line end behind the second.
fn put_entries(
    out: &mut [u8],
    c: Cursor,
    first: &[u8],
    a: u64,
    between: u8,
    second: &[u8],
    b: u64,
) -> Cursor
    ensures { Put out.old c (entries_text first.now a between second.now b) out.new result }
{
    let mut value_a = [0u8; MOST_DIGITS];
    let mut value_b = [0u8; MOST_DIGITS];
    let len_a = digits_of(a, &mut value_a);
    let len_b = digits_of(b, &mut value_b);
    let start = room_for_two(
        c,
        first.len() + len_a + MARKS,
        second.len() + len_b + MARKS,
        out.len(),
    );
    let behind_first = put_entry(out, start, first, &value_a[..len_a], between);
    put_entry(out, behind_first, second, &value_b[..len_b], b'\n')
}

// A name and a value, with a space between them and `end` behind them.
fn put_entry(out: &mut [u8], c: Cursor, name: &[u8], value: &[u8], end: u8) -> Cursor
    ensures { Put out.old c (entry name.now value.now end) out.new result }
{
    let start = room_for_two(c, name.len(), value.len() + MARKS, out.len());
    let behind_name = field_writer::put_all(out, start, name);
    let behind_space = field_writer::put_u8(out, behind_name, b' ');
    let behind_value = field_writer::put_all(out, behind_space, value);
    field_writer::put_u8(out, behind_value, end)
}

// The cursor, or a refusal where two pieces of these sizes at it, one behind the other, do not fit into a buffer of `len`. The sum of the
// sizes could wrap, so the first has to fit into what the second leaves.
fn room_for_two(c: Cursor, first: usize, second: usize, len: usize) -> Cursor
    ensures { Room c (first + second) len result }
{
    let start = field_writer::room(c, second, len);
    let code = start.code;
    if code != Refusal::NONE {
        return start;
    }
    field_writer::room(start, first, len - second)
}
