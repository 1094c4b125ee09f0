// The fields of a message, read one after another. A cursor is a place, or a refusal, which stays: a field that is read at a
// refused cursor leaves it as it is. So a message is read in straight lines, and its refusal is settled once, at the end.
#![tactic(auto)]

ghost use Rattle.std.specs.Prelude.{◌≡◌, true, false, [], ◌+◌};
ghost use Rattle.layout.specs.Kinds.{u8 as kind_u8, i8 as kind_i8, u32 as kind_u32, i32 as kind_i32, u64 as kind_u64, bool as kind_bool, width, num, string, bytes, strings, time_kinds, kinds, attributes, statistics};
ghost use Rattle.layout.specs.Values.{part, number as natural, signed, truth, run as run_of, runs};
ghost use Rattle.layout.specs.Reading.{valid_by, num_at, run_at};
ghost use Rattle.layout.specs.Names.{names_at};
ghost use Rattle.layout.specs.Front.{type_of};
ghost use Rattle.field_reader.specs.Headers.{HeaderRead};
ghost use Rattle.field_reader.specs.Cursors.{Ended, Took, Reads};
ghost use Rattle.field_reader.specs.Plans.{Compared};
ghost use Rattle.wire.specs.Runs.{part_of};
ghost use Rattle.wire.specs.Values.{time_values, attributes_values, statistics_values};

use number::{ReadU8, ReadU32, ReadU64};
use wire::{
    Attributes, Cursor, Header, LONGEST_MESSAGE, RESULT_PLACE, Refusal, Run, Statistics, Timestamp,
};

// A field of each type: its value, and the cursor behind it. Where that is a refusal, the value is 0, false or empty; of a structure, so are
// the members from the refused one on.
#[derive(Clone, Copy)]
pub struct U8Field {
    pub value: u8,
    pub next: Cursor,
}

// A signed number of 1 byte.
#[derive(Clone, Copy)]
pub struct I8Field {
    pub value: i8,
    pub next: Cursor,
}

// A truth value.
#[derive(Clone, Copy)]
pub struct BoolField {
    pub value: bool,
    pub next: Cursor,
}

// A number of 4 bytes, or a count of names.
#[derive(Clone, Copy)]
pub struct U32Field {
    pub value: u32,
    pub next: Cursor,
}

// A signed number of 4 bytes.
#[derive(Clone, Copy)]
pub struct I32Field {
    pub value: i32,
    pub next: Cursor,
}

// A number of 8 bytes.
#[derive(Clone, Copy)]
pub struct U64Field {
    pub value: u64,
    pub next: Cursor,
}

// A text or data.
#[derive(Clone, Copy)]
pub struct RunField {
    pub value: Run,
    pub next: Cursor,
}

// A timestamp.
#[derive(Clone, Copy)]
pub struct TimestampField {
    pub value: Timestamp,
    pub next: Cursor,
}

// Attributes.
#[derive(Clone, Copy)]
pub struct AttributesField {
    pub value: Attributes,
    pub next: Cursor,
}

// Statistics.
#[derive(Clone, Copy)]
pub struct StatisticsField {
    pub value: Statistics,
    pub next: Cursor,
}

// The header of a message, and the cursor behind it.
#[derive(Clone, Copy)]
pub struct HeaderField {
    pub value: Header,
    pub next: Cursor,
}

// The header of a message of either side. A message that is shorter than a header is refused, with id and type 0; an oversize one is refused with its
// id and type. Refuses 1, 2.
pub fn read_header(m: &[u8]) -> HeaderField
    ensures { HeaderRead m.now result.value result.next }
{
    let len = m.len();
    if len < Header::SIZE {
        return HeaderField {
            value: Header {
                id: 0,
                type_number: 0,
            },
            next: Cursor::TRUNCATED_HEADER,
        };
    }
    let id = u32_at(m, Cursor::START);
    let type_number = u8_at(m, id.next);
    let value = Header {
        id: id.value,
        type_number: type_number.value,
    };
    if LONGEST_MESSAGE < len {
        return HeaderField {
            value,
            next: Cursor::OVERSIZE,
        };
    }
    HeaderField {
        value,
        next: Cursor::BEHIND_HEADER,
    }
}

// A number of 1 byte.
fn byte_at(m: &[u8], c: Cursor) -> U8Field
    ensures { Ended m.now c (num_at 1) 0 result.value result.next }
{
    let code = c.code;
    let at = c.at;
    if code != Refusal::NONE {
        return U8Field { value: 0, next: c };
    }
    let read = number::read_u8(m, at);
    match read {
        ReadU8::Whole(value) => U8Field {
            value,
            next: Cursor {
                code: Refusal::NONE,
                at: at + 1,
            },
        },
        ReadU8::Truncated => U8Field {
            value: 0,
            next: Cursor {
                code: Refusal::TRUNCATED,
                at,
            },
        },
    }
}

// A number of 4 bytes.
fn word_at(m: &[u8], c: Cursor) -> U32Field
    ensures { Ended m.now c (num_at 4) 0 result.value result.next }
{
    let code = c.code;
    let at = c.at;
    if code != Refusal::NONE {
        return U32Field { value: 0, next: c };
    }
    let read = number::read_u32(m, at);
    match read {
        ReadU32::Whole(value) => U32Field {
            value,
            next: Cursor {
                code: Refusal::NONE,
                at: at + 4,
            },
        },
        ReadU32::Truncated => U32Field {
            value: 0,
            next: Cursor {
                code: Refusal::TRUNCATED,
                at,
            },
        },
    }
}

// A field of type u8. At a refused cursor nothing is read, as with every field. Refuses 4 where the number begins that does not fit; of a text or
// data that may be its run, of a structure a member.
pub fn u8_at(m: &[u8], c: Cursor) -> U8Field
    ensures { Took m.now c (num kind_u8) (natural result.value) result.next }
{
    byte_at(m, c)
}

// A field of type i8, by two's complement. Refuses 4.
pub fn i8_at(m: &[u8], c: Cursor) -> I8Field
    ensures { Took m.now c (num kind_i8) (signed result.value) result.next }
{
    let byte = byte_at(m, c);
    let next = byte.next;
    I8Field {
        value: number::i8_of_bits(byte.value),
        next,
    }
}

// A field of type bool: 0 is false, every other byte is true. Refuses 4.
pub fn bool_at(m: &[u8], c: Cursor) -> BoolField
    ensures { Took m.now c (num kind_bool) (truth result.value) result.next }
{
    let byte = byte_at(m, c);
    let next = byte.next;
    BoolField {
        value: byte.value != 0,
        next,
    }
}

// A field of type u32. Refuses 4.
pub fn u32_at(m: &[u8], c: Cursor) -> U32Field
    ensures { Took m.now c (num kind_u32) (natural result.value) result.next }
{
    word_at(m, c)
}

// A field of type i32, by two's complement. Refuses 4.
pub fn i32_at(m: &[u8], c: Cursor) -> I32Field
    ensures { Took m.now c (num kind_i32) (signed result.value) result.next }
{
    let word = word_at(m, c);
    let next = word.next;
    I32Field {
        value: number::i32_of_bits(word.value),
        next,
    }
}

// A field of type u64. Refuses 4.
pub fn u64_at(m: &[u8], c: Cursor) -> U64Field
    ensures { Took m.now c (num kind_u64) (natural result.value) result.next }
{
    let code = c.code;
    let at = c.at;
    if code != Refusal::NONE {
        return U64Field { value: 0, next: c };
    }
    let read = number::read_u64(m, at);
    match read {
        ReadU64::Whole(value) => U64Field {
            value,
            next: Cursor {
                code: Refusal::NONE,
                at: at + 8,
            },
        },
        ReadU64::Truncated => U64Field {
            value: 0,
            next: Cursor {
                code: Refusal::TRUNCATED,
                at,
            },
        },
    }
}

// A timestamp: seconds u64, nsec u32. Refuses 4.
pub fn timestamp_at(m: &[u8], c: Cursor) -> TimestampField
    ensures { Reads m.now c time_kinds (time_values result.value []) result.next }
{
    let seconds = u64_at(m, c);
    let nsec = u32_at(m, seconds.next);
    let next = nsec.next;
    TimestampField {
        value: Timestamp {
            seconds: seconds.value,
            nsec: nsec.value,
        },
        next,
    }
}

// Attributes: inode u64, nlink u64, mode u32, uid u32, gid u32, rdev u64, size u64, blocks u64, then the timestamps atime, mtime and ctime.
// Refuses 4.
pub fn attributes_at(m: &[u8], c: Cursor) -> AttributesField
    ensures { Reads m.now c (kinds attributes) (attributes_values result.value) result.next }
{
    let inode = u64_at(m, c);
    let nlink = u64_at(m, inode.next);
    let mode = u32_at(m, nlink.next);
    let uid = u32_at(m, mode.next);
    let gid = u32_at(m, uid.next);
    let rdev = u64_at(m, gid.next);
    let size = u64_at(m, rdev.next);
    let blocks = u64_at(m, size.next);
    let atime = timestamp_at(m, blocks.next);
    let mtime = timestamp_at(m, atime.next);
    let ctime = timestamp_at(m, mtime.next);
    let atime_value = atime.value;
    let mtime_value = mtime.value;
    let ctime_value = ctime.value;
    let value = Attributes {
        inode: inode.value,
        nlink: nlink.value,
        mode: mode.value,
        uid: uid.value,
        gid: gid.value,
        rdev: rdev.value,
        size: size.value,
        blocks: blocks.value,
        atime: atime_value,
        mtime: mtime_value,
        ctime: ctime_value,
    };
    let next = ctime.next;
    AttributesField { value, next }
}

// Statistics: bsize, frsize, blocks, bfree, bavail, files, ffree and namemax, each u64. Refuses 4.
pub fn statistics_at(m: &[u8], c: Cursor) -> StatisticsField
    ensures { Reads m.now c (kinds statistics) (statistics_values result.value) result.next }
{
    let bsize = u64_at(m, c);
    let frsize = u64_at(m, bsize.next);
    let blocks = u64_at(m, frsize.next);
    let bfree = u64_at(m, blocks.next);
    let bavail = u64_at(m, bfree.next);
    let files = u64_at(m, bavail.next);
    let ffree = u64_at(m, files.next);
    let namemax = u64_at(m, ffree.next);
    let value = Statistics {
        bsize: bsize.value,
        frsize: frsize.value,
        blocks: blocks.value,
        bfree: bfree.value,
        bavail: bavail.value,
        files: files.value,
        ffree: ffree.value,
        namemax: namemax.value,
    };
    let next = namemax.next;
    StatisticsField { value, next }
}

// A run of `len` bytes, well-formed where it is text. The comparison is by subtraction: the place and the length are not added
// before it is known that the run fits. Malformed text is refused where its longest well-formed beginning ends.
fn run_at(m: &[u8], c: Cursor, len: u32, text: bool) -> RunField
    ensures { Ended m.now c (run_at (valid_by text) len) (part 0 0) (part_of result.value) result.next }
{
    let code = c.code;
    let start = c.at;
    if code != Refusal::NONE {
        return stopped(c);
    }
    let all = m.len();
    if all < start {
        return stopped(Cursor {
            code: Refusal::TRUNCATED,
            at: start,
        });
    }
    let len = len as usize;
    if all - start < len {
        return stopped(Cursor {
            code: Refusal::TRUNCATED,
            at: start,
        });
    }
    let end = start + len;
    if text {
        let well_formed = text::well_formed_end(&m[start..end]);
        if well_formed != len {
            return stopped(Cursor {
                code: Refusal::MALFORMED_TEXT,
                at: start + well_formed,
            });
        }
    }
    RunField {
        value: Run { start, len },
        next: Cursor {
            code: Refusal::NONE,
            at: end,
        },
    }
}

// No run, and this refusal.
fn stopped(c: Cursor) -> RunField
    ensures { (result.next ≡ c) × (part_of result.value ≡ part 0 0) }
{
    RunField {
        value: Run::EMPTY,
        next: c,
    }
}

// A string: its length u32, then so many bytes of well-formed text. Refuses 4, and 5 where the first broken
// character begins.
pub fn string_at(m: &[u8], c: Cursor) -> RunField
    ensures { Took m.now c string (run_of (part_of result.value)) result.next }
{
    let len = word_at(m, c);
    run_at(m, len.next, len.value, true)
}

// Data: its length u32, then so many bytes. Refuses 4.
pub fn bytes_at(m: &[u8], c: Cursor) -> RunField
    ensures { Took m.now c bytes (run_of (part_of result.value)) result.next }
{
    let len = word_at(m, c);
    run_at(m, len.next, len.value, false)
}

// Names: a count u32, then so many strings; the value is the count. It is not believed: each name is met before the next, and the first
// that is not there or not well-formed refuses the message. Refuses 4, 5.
pub fn names_at(m: &[u8], c: Cursor) -> U32Field
    ensures { Took m.now c strings (runs (names_at result.value m.now (c.at + width kind_u32))) result.next }
{
    let count = word_at(m, c);
    let first = count.next;
    let code = first.code;
    let mut at = first.at;
    if code != Refusal::NONE {
        return count;
    }
    let mut left = count.value;
    while 0 < left {
        let name = string_at(
            m,
            Cursor {
                code: Refusal::NONE,
                at,
            },
        );
        let next = name.next;
        let code = next.code;
        if code != Refusal::NONE {
            return U32Field { value: 0, next };
        }
        at = next.at;
        left -= 1;
    }
    U32Field {
        value: count.value,
        next: Cursor {
            code: Refusal::NONE,
            at,
        },
    }
}

// The cursor behind the data of a read reply, once its result is compared with the length of the data. Where the data is not whole, its refusal
// stays. Refuses 6.
pub fn compared(c: Cursor, len: usize, res: u32) -> Cursor
    ensures { Compared c len res result }
{
    let code = c.code;
    if code != Refusal::NONE {
        return c;
    }
    if len == res as usize {
        return c;
    }
    Cursor {
        code: Refusal::DATA_LENGTH_MISMATCH,
        at: RESULT_PLACE,
    }
}

// The type of a message, 0 where it has none.
pub fn type_of(m: &[u8]) -> u8
    ensures { result ≡ type_of m.now }
{
    if m.len() <= Header::TYPE_PLACE {
        return 0;
    }
    m[Header::TYPE_PLACE]
}
