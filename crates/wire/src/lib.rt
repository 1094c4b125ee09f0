// What readers and writers share: a cursor, a part of a message, the structures that messages carry; and the numbers of refusal, sizes
// and places as constants. What the constants are called in definitions is in `layout` (Refusals, Limits, Reading, Names).
#![tactic(auto)]

ghost use Rattle.wire.specs.Runs.{part_of, Shows};

// A place of a message or of a lent buffer, or a refusal, which stays. Code 0: a place. Any other code: a refusal by its number, with its
// place.
#[derive(Clone, Copy)]
pub struct Cursor {
    pub code: u8,
    pub at: usize,
}

impl Cursor {
    // The start of a message or of a lent buffer.
    pub const START: Cursor = Cursor {
        code: Refusal::NONE,
        at: 0,
    };

    // Behind the header, where the fields of a request and the result of a reply begin.
    pub const BEHIND_HEADER: Cursor = Cursor {
        code: Refusal::NONE,
        at: Header::SIZE,
    };

    // A message that is shorter than its header. The place of this refusal and of those below is 0.
    pub const TRUNCATED_HEADER: Cursor = Cursor {
        code: Refusal::TRUNCATED_HEADER,
        at: 0,
    };

    // A message that is longer than the longest, read or to be written.
    pub const OVERSIZE: Cursor = Cursor {
        code: Refusal::OVERSIZE,
        at: 0,
    };

    // A text to be written that is not well-formed.
    pub const MALFORMED_TEXT: Cursor = Cursor {
        code: Refusal::MALFORMED_TEXT,
        at: 0,
    };

    // A read reply to be written whose result is not the length of its data.
    pub const DATA_LENGTH_MISMATCH: Cursor = Cursor {
        code: Refusal::DATA_LENGTH_MISMATCH,
        at: 0,
    };

    // A lent buffer that is shorter than what is to be written.
    pub const BUFFER_TOO_SMALL: Cursor = Cursor {
        code: Refusal::BUFFER_TOO_SMALL,
        at: 0,
    };

    // A success to be written with a negative result.
    pub const RESULT_SIGN: Cursor = Cursor {
        code: Refusal::RESULT_SIGN,
        at: 0,
    };
}

// The numbers of refusal: document 01's, then document 02's. The word in brackets is document 01's.
#[derive(Clone, Copy)]
pub struct Refusal;

impl Refusal {
    // The code of a cursor that is a place.
    pub const NONE: u8 = 0;

    // (runt) Fewer bytes than the header has.
    pub const TRUNCATED_HEADER: u8 = 1;

    // (over-long) More bytes than the longest message has, read or to be written.
    pub const OVERSIZE: u8 = 2;

    // (stray) A type that no such message has.
    pub const UNEXPECTED_TYPE: u8 = 3;

    // (short) A number or a run that does not fit into the message.
    pub const TRUNCATED: u8 = 4;

    // (text) A string that is not well-formed.
    pub const MALFORMED_TEXT: u8 = 5;

    // (tally) A read reply whose result is not the length of its data.
    pub const DATA_LENGTH_MISMATCH: u8 = 6;

    // (room) A lent buffer that is shorter than what is to be written.
    pub const BUFFER_TOO_SMALL: u8 = 7;

    // (sign) A failure without a negative result, or a success with one.
    pub const RESULT_SIGN: u8 = 8;

    // (list) Lengths of names that do not sum to their run.
    pub const LENGTHS_MISMATCH: u8 = 9;

    // A request with this id is outstanding.
    pub const ID_OUTSTANDING: u8 = 10;

    // The table of outstanding requests has no free record.
    pub const TABLE_FULL: u8 = 11;

    // A reply to an id that is not outstanding.
    pub const ID_NOT_OUTSTANDING: u8 = 12;

    // A reply whose type does not answer the request.
    pub const TYPE_MISMATCH: u8 = 13;

    // Records that no calls on the table leave.
    pub const UNSOUND_TABLE: u8 = 20;
}

// The bytes of the longest message.
pub const LONGEST_MESSAGE: usize = 65536;

// The header of a message.
#[derive(Clone, Copy)]
pub struct Header {
    pub id: u32,
    pub type_number: u8,
}

impl Header {
    // Its bytes: id and type.
    pub const SIZE: usize = 5;

    // Where the type stands.
    pub const TYPE_PLACE: usize = 4;
}

// Where the result of a reply stands.
pub const RESULT_PLACE: usize = Header::SIZE;

// The bytes of a result.
pub const RESULT_SIZE: usize = 4;

// Where the fields behind a result begin.
pub const FIELDS_PLACE: usize = RESULT_PLACE + RESULT_SIZE;

// The bytes of a count of names.
pub const COUNT_SIZE: usize = 4;

// Where the first name of a readdir reply begins: behind header, result and count.
pub const FIRST_NAME: usize = FIELDS_PLACE + COUNT_SIZE;

// A part of a message: the bytes of a text or of data (document 01: run).
#[derive(Clone, Copy)]
pub struct Run {
    pub start: usize,
    pub len: usize,
}

impl Run {
    // The bytes of the length that stands in front of a run.
    pub const LENGTH_SIZE: usize = 4;

    // No bytes, at the start of the message.
    pub const EMPTY: Run = Run { start: 0, len: 0 };
}

// A time: seconds and nanoseconds.
#[derive(Clone, Copy)]
pub struct Timestamp {
    pub seconds: u64,
    pub nsec: u32,
}

impl Timestamp {
    // Its bytes in a message.
    pub const SIZE: usize = 12;
}

// What a getattr reply tells of a file.
#[derive(Clone, Copy)]
pub struct Attributes {
    pub inode: u64,
    pub nlink: u64,
    pub mode: u32,
    pub uid: u32,
    pub gid: u32,
    pub rdev: u64,
    pub size: u64,
    pub blocks: u64,
    pub atime: Timestamp,
    pub mtime: Timestamp,
    pub ctime: Timestamp,
}

impl Attributes {
    // Their bytes in a message.
    pub const SIZE: usize = 88;
}

// What a statfs reply tells of a file system.
#[derive(Clone, Copy)]
pub struct Statistics {
    pub bsize: u64,
    pub frsize: u64,
    pub blocks: u64,
    pub bfree: u64,
    pub bavail: u64,
    pub files: u64,
    pub ffree: u64,
    pub namemax: u64,
}

impl Statistics {
    // Their bytes in a message.
    pub const SIZE: usize = 64;
}

// The bytes of a run as a part of the message; none where the run does not lie inside it.
pub fn bytes_of<'a>(m: &'a [u8], r: Run) -> &'a [u8]
    ensures { Shows m.entry (part_of r) result }
{
    let start = r.start;
    let len = r.len;
    let all = m.len();
    if all < start {
        return &m[0..0];
    }
    if all - start < len {
        return &m[0..0];
    }
    let end = start + len;
    &m[start..end]
}
