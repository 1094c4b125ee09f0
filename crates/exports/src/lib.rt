// What a host in C, C++ or Rust is answered: structs of numbers, returned by value. The functions stand in the crates
// exports_reading, exports_requests, exports_replies, exports_front, exports_listing, exports_outstanding and exports_text.
#![tactic(auto)]

ghost use Rattle.std.specs.Prelude.{◌≡◌};
ghost use Rattle.message_writer.specs.Writers.{told_of};
ghost use Rattle.exports.specs.Shown.{written_of};

use message_writer::Written;

// The version of all that a host sees: the functions, their arguments and answers, the cells of an answer and the words of a table. A
// change of any raises it; a function that is added does not.
pub const VERSION: u32 = 3;

// The answer of a reader. `shape` is 0 for a refusal, which has `number` and `place` and nothing else; 1 for an unknown request or
// the unknown response, 2 for a known request, 3 for a failure, 4 for a success, which have all but these two. `fields` has the
// cells of the fields in page order, a reply's result first, and 0 behind them.
#[repr(C)]
#[derive(Drop)]
pub struct TushaletsReading {
    pub shape: u32,
    pub number: u32,
    pub id: u32,
    pub type_number: u32,
    pub place: usize,
    pub known: usize,
    pub fields: [u64; 17],
}

// A step over the names of a readdir reply: `found` is 1, the name is the part at `start` of `len` bytes, and the next step goes
// from `at` and `left`. Or `found` is 0, there is no further name, and the position stays.
#[repr(C)]
#[derive(Drop)]
pub struct TushaletsName {
    pub found: u32,
    pub left: u32,
    pub start: usize,
    pub len: usize,
    pub at: usize,
}

// The answer of a writer: `number` is 0 and `len` bytes were stored; or it is a refusal's, with its place, and `len` is 0.
#[repr(C)]
#[derive(Drop)]
pub struct TushaletsWritten {
    pub number: u32,
    pub len: usize,
    pub place: usize,
}

// What the front did: `act` is 0 where it handed the request on, 1 where it stored `len` bytes, 2 where it refused.
#[repr(C)]
#[derive(Drop)]
pub struct TushaletsFronted {
    pub act: u32,
    pub number: u32,
    pub len: usize,
    pub place: usize,
}

impl TushaletsWritten {
    // What a writer answered.
    pub fn of(written: Written) -> TushaletsWritten
        ensures { result ≡ written_of (told_of written) }
    {
        match written {
            Written::Stored { len } => TushaletsWritten {
                number: 0,
                len,
                place: 0,
            },
            Written::Refused { number, place } => TushaletsWritten {
                number: number as u32,
                len: 0,
                place,
            },
        }
    }
}
