// One call on a table of 64 records, by the functions that a service calls on records that it lends: op `o`.
ghost use Rattle.std.specs.Prelude.{◌≡◌};
ghost use Rattle.shown.specs.Cases.{record_in, table_in};

use crate::{cases, print};
use outstanding_bridges::{ArrivedTable, EnteredTable};
use outstanding_decisions::{Arrived, Entered};
use outstanding_records::{Record, Request, SIZE};
use reply_reader::ReplyAnswer;

// The calls; any other one is that of an arriving reply.
const EMPTY: u8 = b'e';

const ENTER: u8 = b'n';

// A body is the call, the id and the type of an entry, the records, and the message of a reply. A record is whether it is held, its id
// and its type, at the same places.
const CALL_PLACE: usize = 0;

const HELD_PLACE: usize = 0;

const ID_PLACE: usize = 1;

const TYPE_PLACE: usize = 5;

const RECORD_LEN: usize = 6;

const RECORDS_PLACE: usize = 6;

// The answer to a case of calls on a table.
pub(crate) fn answer(body: &[u8]) {
    let id = cases::word_at(body, ID_PLACE);
    let type_number = cases::byte_at(body, TYPE_PLACE);
    let records = cases::rest(body, RECORDS_PLACE);
    let table = read_table(records);
    let message = cases::rest(records, SIZE * RECORD_LEN);
    let call = cases::byte_at(body, CALL_PLACE);
    match call {
        EMPTY => show_entered(b"emptied", outstanding_bridges::empty(table)),
        ENTER => show_entered(
            b"entered",
            outstanding_bridges::enter(table, id, type_number),
        ),
        _ => show_arrived(message, outstanding_bridges::arrive(table, message)),
    }
}

// The table whose records stand there one behind the other.
fn read_table(records: &[u8]) -> [Record; SIZE]
    ensures { result ≡ table_in records.now }
{
    let mut table = [Record::Free; SIZE];
    let mut i = 0;
    while i < SIZE {
        table[i] = read_record(cases::rest(records, i * RECORD_LEN));
        i += 1;
    }
    table
}

// The first of the records that stand there.
fn read_record(records: &[u8]) -> Record
    ensures { result ≡ record_in records.now }
{
    if cases::byte_at(records, HELD_PLACE) == 0 {
        return Record::Free;
    }
    let request = Request {
        type_number: cases::byte_at(records, TYPE_PLACE),
    };
    Record::Held {
        id: cases::word_at(records, ID_PLACE),
        request,
    }
}

// ---- answers

fn show_entered(done: &[u8], after: EnteredTable) {
    let answer = after.answer;
    match answer {
        Entered::Done => print::put(done),
        Entered::Refused { number, place } => print::put_refusal(number, place),
    }
    let words = after.words;
    print::put_hash_of_records(words);
}

fn show_arrived(message: &[u8], after: ArrivedTable) {
    let answer = after.answer;
    match answer {
        Arrived::Answered { answer } => show_parts(message, answer),
        Arrived::Refused { number, place } => print::put_refusal(number, place),
    }
    let words = after.words;
    print::put_hash_of_records(words);
}

fn show_parts(message: &[u8], answer: ReplyAnswer) {
    print::put(b"answered");
    print::put_part(reply_parts::resolved(message, answer));
    print::put_part(reply_parts::data(message, answer));
    print::put_part(reply_parts::creds(message, answer));
}
