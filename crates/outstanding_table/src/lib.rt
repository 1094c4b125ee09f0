// The table of outstanding requests, in records that a service lends: emptied, entered into, given an arriving reply, looked into.
// Each function copies the records, has the call decided on the copy, and stores one record.
#![tactic(auto)]

ghost use Rattle.std.specs.Prelude.{◌≡◌};
ghost use Rattle.layout.specs.Table.{reply as reply_side};
ghost use Rattle.layout.specs.Reading.{read};
ghost use Rattle.outstanding.specs.Calls.{performed, perform, empty as empty_in, enter as enter_in, arrive as arrive_in, look as look_at};
ghost use Rattle.outstanding_decisions.specs.Decisions.{told_of, arrival_of, looked_of};

use outstanding_decisions::{Arrived, Entered, Looked};
use outstanding_records::Record;
use wire::Refusal;

// Frees every record. Refuses 20, for the number of records alone.
pub fn empty(records: &mut [Record]) -> Entered
    ensures { performed (told_of result) records.new ≡ empty_in Record.Free records.old }
{
    if records.len() != outstanding_records::SIZE {
        return Entered::Refused {
            number: Refusal::UNSOUND_TABLE,
            place: 0,
        };
    }
    outstanding_records::clear(records);
    Entered::Done
}

// Enters a request by its id and type, into the first free record. Refuses 20, 3, 10, 11.
pub fn enter(records: &mut [Record], id: u32, type_number: u8) -> Entered
    ensures { performed (told_of result) records.new ≡ perform (enter_in records.old id type_number) records.old }
{
    let len = records.len();
    let table = outstanding_records::load(records);
    let entry = outstanding_decisions::decide_entry(len, table, id, type_number);
    let record = entry.record;
    outstanding_records::put(records, entry.at, record);
    entry.answer
}

// Takes an arriving reply: what its reader answers, and its record is free; or a refusal, and no record has changed. Refuses 20,
// what the reader refuses, 12, 13.
pub fn arrive(records: &mut [Record], message: &[u8]) -> Arrived
    ensures { performed (arrival_of message.now result) records.new
        ≡ perform (arrive_in records.old (read reply_side message.now)) records.old }
{
    let len = records.len();
    let table = outstanding_records::load(records);
    let removal = outstanding_decisions::decide_arrival(len, table, message);
    let at = removal.at;
    outstanding_records::put(records, at, Record::Free);
    removal.answer
}

// Shows how many requests are outstanding, and the one of an id. Refuses 20.
pub fn look(records: &[Record], id: u32) -> Looked
    ensures { looked_of result ≡ look_at records.now id }
{
    let len = records.len();
    let table = outstanding_records::load(records);
    outstanding_decisions::decide_look(len, table, id)
}
