// The records of the table of outstanding requests, as a service lends them: one is stored, all are freed, all are copied. A record is also
// a word of 64 bits, for a host that lends numbers. Nothing is decided here.
#![tactic(auto)]

mod word;

ghost use Rattle.std.specs.Prelude.{◌≡◌, length, set, replicate};
ghost use Rattle.outstanding_records.specs.Copies.{Copied};

// The records of a table.
pub const SIZE: usize = 64;

// What is known of an outstanding request beside its id.
#[derive(Clone, Copy, PartialEq, Eq, Debug)]
pub struct Request {
    pub type_number: u8,
}

// A record of the table.
#[derive(Clone, Copy, PartialEq, Eq, Debug)]
pub enum Record {
    // It holds no request.
    Free,
    // It holds a request under its id.
    Held { id: u32, request: Request },
}

// Stores a record at a place. A place past the end changes nothing.
pub fn put(records: &mut [Record], at: usize, r: Record)
    ensures { records.new ≡ set records.old at r }
{
    // What `get_mut` lends is written back without a clause on the records afterwards: a proof knows only how many there are.
    if at < records.len() {
        records[at] = r;
    }
}

// Frees every record.
pub fn clear(records: &mut [Record])
    ensures { records.new ≡ replicate (length records.old) Record.Free }
{
    records.fill(Record::Free);
}

// A copy of 64 records. Of another number of records, what it holds is left open.
pub fn load(records: &[Record]) -> [Record; SIZE]
    ensures { Copied records.now result }
{
    <[Record; SIZE]>::try_from(records).unwrap_or([Record::Free; SIZE])
}
