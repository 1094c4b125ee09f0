// The readdir reply, written into a lent buffer. Its names are given as one run of bytes and a list of lengths; those of a reply
// that was read are collected into this form. All checks stand before the first store, so a refusal changes no byte.
#![tactic(auto)]

ghost use Rattle.std.specs.Prelude.{◌≡◌, eqb, length, ◌≤◌};
ghost use Rattle.layout.specs.Limits.{longest};
ghost use Rattle.layout.specs.Reading.{bytes_at};
ghost use Rattle.layout.specs.Writing.{all_well_formed, split, sum, write_names};
ghost use Rattle.field_writer.specs.Stored.{Puts};
ghost use Rattle.message_writer.specs.Writers.{Writes};
ghost use Rattle.readdir_writer.specs.Readdir.{name_pieces, store_names};
ghost use Rattle.readdir_writer.specs.Collecting.{names_in, next_of, sizes, no_room, counted, lent, Collects, RoomFor, Copies};

use message_writer::Written;
use method::Method;
use number::ReadU32;
use wire::{Cursor, FIRST_NAME, Refusal, Run};

// readdir: result i32, items strings; `names` are the names one behind the other, `lengths` the length of each. Refuses 8, 9, 5, 2, 7.
pub fn write_readdir(id: u32, res: i32, names: &[u8], lengths: &[u32], out: &mut [u8]) -> Written
    ensures { Writes (write_names id res lengths.now names.now) out.entry out.exit result }
{
    let negative = res < 0;
    if negative {
        return Written::Refused {
            number: Refusal::RESULT_SIGN,
            place: 0,
        };
    }
    if sums_to(lengths, names.len()) {
        return write_summed(id, res, names, lengths, out);
    }
    Written::Refused {
        number: Refusal::LENGTHS_MISMATCH,
        place: 0,
    }
}

// The lengths sum to `total`. Each is taken from what is left, so that no sum wraps.
fn sums_to(lengths: &[u32], total: usize) -> bool
    ensures { result ≡ eqb (sum lengths.now) total }
{
    let mut left = total;
    let mut i = 0;
    while i < lengths.len() {
        let len = lengths[i] as usize;
        if left < len {
            return false;
        }
        left -= len;
        i += 1;
    }
    left == 0
}

// The reply, its lengths known to sum to the run. Four times the length of a slice of u32 is a number of bytes, which does not
// wrap, and `admit` tests each summand of the size before it adds.
// Asks for that sum: `write_readdir` has tested it.
fn write_summed(id: u32, res: i32, names: &[u8], lengths: &[u32], out: &mut [u8]) -> Written
    requires { sum lengths.now ≡ length names.now }
    ensures { Writes (store_names id res (split lengths.now names.now)) out.entry out.exit result }
{
    let texts = are_texts(names, lengths);
    let start = message_writer::admit(
        texts,
        names.len(),
        Run::LENGTH_SIZE * lengths.len(),
        FIRST_NAME,
        out.len(),
    );
    let header = field_writer::put_header(out, start, id, Method::READDIR_REPLY);
    let behind_result = field_writer::put_i32(out, header, res);
    let count = (lengths.len() % 0x1_0000_0000) as u32;
    let behind_count = field_writer::put_u32(out, behind_result, count);
    let behind_names = put_names(out, behind_count, names, lengths);
    message_writer::finish(behind_names)
}

// Each name by itself is well-formed text.
// Asks that the lengths sum to the run, as `write_summed` does.
fn are_texts(names: &[u8], lengths: &[u32]) -> bool
    requires { sum lengths.now ≡ length names.now }
    ensures { result ≡ all_well_formed (split lengths.now names.now) }
{
    let mut at = 0;
    let mut i = 0;
    while i < lengths.len() {
        let len = lengths[i] as usize;
        let end = at + len;
        if !message_writer::is_text(&names[at..end]) {
            return false;
        }
        at = end;
        i += 1;
    }
    true
}

// Each name: its length, then its bytes.
// Asks that the lengths sum to the run, as `write_summed` does, and that it is no longer than the longest message: `admit` has tested it.
fn put_names(out: &mut [u8], c: Cursor, names: &[u8], lengths: &[u32]) -> Cursor
    requires { (sum lengths.now ≡ length names.now) × (c.code ≡ 0 → length names.now ≤ longest) }
    ensures { Puts out.old c (name_pieces (split lengths.now names.now)) out.new result }
{
    let mut next = c;
    let mut at = 0;
    let mut i = 0;
    while i < lengths.len() {
        let len = lengths[i] as usize;
        let end = at + len;
        next = field_writer::put_run(out, next, &names[at..end]);
        at = end;
        i += 1;
    }
    next
}

// What collecting names answers.
#[derive(Clone, Copy)]
pub enum Collected {
    // So many names with so many bytes in all were copied.
    Copied { count: usize, len: usize },
    // Document 01's number of refusal, and its place: a lent buffer is too small.
    Refused { number: u8, place: usize },
}

// The names that stand in a readdir reply, as `write_readdir` takes them: their bytes as one run, and their lengths. `count` is the
// reader's. The room is looked at before the first is copied. A name that does not fit into the message ends the names, so a count
// that was made up does no harm. Refuses 7.
pub fn collect_names(m: &[u8], count: u32, run: &mut [u8], lengths: &mut [u32]) -> Collected
    ensures { Collects m.now (names_in m.now count) (lent run.entry lengths.entry) (lent run.exit lengths.exit) result }
{
    let answer = count_names(m, count, run.len(), lengths.len());
    match answer {
        Collected::Copied { count: copied, len } => {
            copy_names(m, count, run, lengths);
            Collected::Copied { count: copied, len }
        }
        Collected::Refused { number, place } => Collected::Refused { number, place },
    }
}

// What collecting will answer, with room for `room` bytes and `most` lengths.
fn count_names(m: &[u8], count: u32, room: usize, most: usize) -> Collected
    ensures { result ≡ counted (sizes (names_in m.now count)) room most }
{
    let mut at = FIRST_NAME;
    let mut left = count;
    let mut done = 0;
    let mut total = 0;
    while 0 < left {
        let next = name_at(m, at);
        let Next::Name { start, len } = next else {
            return Collected::Copied {
                count: done,
                len: total,
            };
        };
        let len = len as usize;
        if most <= done {
            return no_room();
        }
        if room - total < len {
            return no_room();
        }
        at = start + len;
        left -= 1;
        done += 1;
        total += len;
    }
    Collected::Copied {
        count: done,
        len: total,
    }
}

fn no_room() -> Collected
    ensures { result ≡ no_room }
{
    Collected::Refused {
        number: Refusal::BUFFER_TOO_SMALL,
        place: 0,
    }
}

// Copies the names. There is room for them.
// Asks for that room: `count_names` has tested it.
fn copy_names(m: &[u8], count: u32, run: &mut [u8], lengths: &mut [u32])
    requires { RoomFor (sizes (names_in m.now count)) (lent run lengths) }
    ensures { Copies m.now (names_in m.now count) (lent run.entry lengths.entry) (lent run.exit lengths.exit) }
{
    let mut behind = Cursor::START;
    let mut at = FIRST_NAME;
    let mut left = count;
    let mut done = 0;
    while 0 < left {
        let next = name_at(m, at);
        let Next::Name { start, len } = next else {
            return;
        };
        let end = start + len as usize;
        behind = field_writer::put_all(run, behind, &m[start..end]);
        lengths[done] = len;
        at = end;
        left -= 1;
        done += 1;
    }
}

// The name at a place of the message.
#[derive(Clone, Copy)]
pub enum Next {
    // Where its bytes begin, and how many they are.
    Name { start: usize, len: u32 },
    // It does not fit into the message.
    End,
}

// The name whose length stands at `at`.
pub fn name_at(m: &[u8], at: usize) -> Next
    ensures { result ≡ next_of (bytes_at m.now at) }
{
    let read = number::read_u32(m, at);
    let ReadU32::Whole(len) = read else {
        return Next::End;
    };
    let start = at + Run::LENGTH_SIZE;
    if m.len() - start < len as usize {
        return Next::End;
    }
    Next::Name { start, len }
}
