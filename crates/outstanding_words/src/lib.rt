// What is looked for in a table of outstanding requests, in words. A host lends words; records that a service lends are turned into words
// to be decided on.
#![tactic(auto)]

ghost use Rattle.std.specs.Prelude.{◌≡◌, map, length, position};
ghost use Rattle.outstanding.specs.Records.{is_free, holds_id, any, ids};
ghost use Rattle.outstanding.specs.Calls.{sound};
ghost use Rattle.outstanding_records.specs.Words.{word_of, records as records_of};

use method::Method;
use outstanding_records::{Record, SIZE};

// The words of a table, which are read as its records again.
pub fn words_of(table: [Record; SIZE]) -> [u64; SIZE]
    ensures { (result ≡ map word_of table) × (records_of result ≡ table) }
{
    table.map(u64::from)
}

// ---- a record

fn is_free(r: Record) -> bool
    ensures { result ≡ is_free r }
{
    r == Record::Free
}

fn holds(r: Record, id: u32) -> bool
    ensures { result ≡ holds_id id r }
{
    match r {
        Record::Free => false,
        Record::Held { id: held, .. } => held == id,
    }
}

// ---- all records

// The place of the first record that holds an id, where one does.
pub fn find_id(words: &[u64], id: u32) -> Option<usize>
    ensures { result ≡ position (holds_id id) (records_of words.now) }
{
    words
        .iter()
        .map(|w| Record::from(*w))
        .position(|r| holds(r, id))
}

// The place of the first free record, where one is.
pub fn find_free(words: &[u64]) -> Option<usize>
    ensures { result ≡ position is_free (records_of words.now) }
{
    words
        .iter()
        .map(|w| Record::from(*w))
        .position(|r| is_free(r))
}

// How many requests are outstanding. The loop adds 0 or 1 for each word, so that it is compiled to vector instructions.
pub fn count(words: &[u64]) -> usize
    ensures { result ≡ length (ids (records_of words.now)) }
{
    let mut n = 0;
    for word in words {
        n += usize::from(!is_free(Record::from(*word)));
    }
    n
}

// Whether there are 64 records, every held type is a request's, and no id is held twice.
#[tactic(auto, using(crate::proofs::Scans::turns))]
pub fn is_sound(words: &[u64]) -> bool
    ensures { result ≡ sound (records_of words.now) }
{
    if words.len() != SIZE {
        return false;
    }
    let mut rest = words;
    while let Some((w, behind)) = rest.split_first() {
        if let Record::Held { id, request } = Record::from(*w) {
            if request.type_number >= Method::REPLY_OFFSET || is_held(behind, id) {
                return false;
            }
        }
        rest = behind;
    }
    true
}

// Whether a record holds an id. The loop does not end early, so that it is compiled to vector instructions.
fn is_held(words: &[u64], id: u32) -> bool
    ensures { result ≡ any (holds_id id) (records_of words.now) }
{
    let mut held = false;
    for w in words {
        held |= holds(Record::from(*w), id);
    }
    held
}
