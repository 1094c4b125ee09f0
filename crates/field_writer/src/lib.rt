// The fields of a message, stored one after another at a cursor of the lent buffer. A cursor is a place, or a refusal, which
// stays: a field that is stored at a refused cursor changes no byte, nor does one that does not fit. So a message is checked
// once, before its first byte is stored, and written in straight lines.
#![tactic(auto)]

ghost use Rattle.std.specs.Prelude.{◌≡◌, ◌++◌, ◌+◌, ◌≤◌, length};
ghost use Rattle.number.specs.BigEndian.{bytes_of, overwritten};
ghost use Rattle.number.specs.TwosComplement.{bits_of};
ghost use Rattle.layout.specs.Writing.{bit, sized};
ghost use Rattle.field_writer.specs.Stored.{Room, Put, run_from};

use wire::{Cursor, Header, LONGEST_MESSAGE, Refusal, Run};

// The cursor, or a refusal where `size` bytes at it do not fit into a buffer of `len`: what several stores test before the first. Refuses 7.
pub fn room(c: Cursor, size: usize, len: usize) -> Cursor
    ensures { Room c size len result }
{
    let code = c.code;
    let at = c.at;
    if code != Refusal::NONE {
        return c;
    }
    if len < size {
        return Cursor::BUFFER_TOO_SMALL;
    }
    if len - size < at {
        return Cursor::BUFFER_TOO_SMALL;
    }
    c
}

// A field of type u8. As every store: at a refused cursor, and where it does not fit, no byte changes. Refuses 7.
pub fn put_u8(out: &mut [u8], c: Cursor, x: u8) -> Cursor
    ensures { Put out.old c (bytes_of 1 x) out.new result }
{
    let code = c.code;
    let at = c.at;
    if code != Refusal::NONE {
        return c;
    }
    if number::store_u8(out, at, x) {
        return Cursor {
            code: Refusal::NONE,
            at: at + 1,
        };
    }
    Cursor::BUFFER_TOO_SMALL
}

// A field of type u32. Refuses 7.
pub fn put_u32(out: &mut [u8], c: Cursor, x: u32) -> Cursor
    ensures { Put out.old c (bytes_of 4 x) out.new result }
{
    let code = c.code;
    let at = c.at;
    if code != Refusal::NONE {
        return c;
    }
    if number::store_u32(out, at, x) {
        return Cursor {
            code: Refusal::NONE,
            at: at + 4,
        };
    }
    Cursor::BUFFER_TOO_SMALL
}

// A field of type u64. Refuses 7.
pub fn put_u64(out: &mut [u8], c: Cursor, x: u64) -> Cursor
    ensures { Put out.old c (bytes_of 8 x) out.new result }
{
    let code = c.code;
    let at = c.at;
    if code != Refusal::NONE {
        return c;
    }
    if number::store_u64(out, at, x) {
        return Cursor {
            code: Refusal::NONE,
            at: at + 8,
        };
    }
    Cursor::BUFFER_TOO_SMALL
}

// A field of type i8, by two's complement. Refuses 7.
pub fn put_i8(out: &mut [u8], c: Cursor, x: i8) -> Cursor
    ensures { Put out.old c (bytes_of 1 (bits_of 1 x)) out.new result }
{
    put_u8(out, c, number::bits_of_i8(x))
}

// A field of type i32, by two's complement. Refuses 7.
pub fn put_i32(out: &mut [u8], c: Cursor, x: i32) -> Cursor
    ensures { Put out.old c (bytes_of 4 (bits_of 4 x)) out.new result }
{
    put_u32(out, c, number::bits_of_i32(x))
}

// A field of type bool: true is 1, false is 0. Refuses 7.
pub fn put_bool(out: &mut [u8], c: Cursor, x: bool) -> Cursor
    ensures { Put out.old c (bytes_of 1 (bit x)) out.new result }
{
    if x {
        put_u8(out, c, 1)
    } else {
        put_u8(out, c, 0)
    }
}

// The bytes of `s`, without their length. Refuses 7.
pub fn put_all(out: &mut [u8], c: Cursor, s: &[u8]) -> Cursor
    ensures { Put out.old c s.now out.new result }
{
    let len = s.len();
    let start = room(c, len, out.len());
    let code = start.code;
    let at = start.at;
    if code != Refusal::NONE {
        return start;
    }
    copy(out, at, s);
    Cursor {
        code: Refusal::NONE,
        at: at + len,
    }
}

// Asks that `s` fits into `out` from `at` on: `put_all` has tested the room.
fn copy(out: &mut [u8], at: usize, s: &[u8])
    requires { at + length s.now ≤ length out.old }
    ensures { out.new ≡ overwritten out.old at s.now }
{
    let mut done = 0;
    while done < s.len() {
        out[at + done] = s[done];
        done += 1;
    }
}

// A text or data: its length, then all of it (document 01: run). One that is longer than any message is refused, so that the length that
// is stored is its own; and the room for both is tested before the first is stored. Refuses 2, 7.
pub fn put_run(out: &mut [u8], c: Cursor, s: &[u8]) -> Cursor
    ensures { Put out.old (run_from c (length s.now)) (sized s.now) out.new result }
{
    let code = c.code;
    let len = s.len();
    if code != Refusal::NONE {
        return c;
    }
    if LONGEST_MESSAGE < len {
        return Cursor::OVERSIZE;
    }
    let start = room(c, Run::LENGTH_SIZE + len, out.len());
    let behind_length = put_u32(out, start, len as u32);
    put_all(out, behind_length, s)
}

// The header of a message: its id and its type, where there is room for both. Refuses 7.
pub fn put_header(out: &mut [u8], c: Cursor, id: u32, type_number: u8) -> Cursor
    ensures { Put out.old c (bytes_of 4 id ++ bytes_of 1 type_number) out.new result }
{
    let start = room(c, Header::SIZE, out.len());
    let behind_id = put_u32(out, start, id);
    put_u8(out, behind_id, type_number)
}
