// Bridges to the table of outstanding requests for a caller that holds the 64 records by value: it hands them in and has them back as words,
// beside the answer.
#![tactic(auto)]

ghost use Rattle.std.specs.Prelude.{◌≡◌, map};
ghost use Rattle.layout.specs.Table.{reply as reply_side};
ghost use Rattle.layout.specs.Reading.{read};
ghost use Rattle.outstanding.specs.Calls.{perform, empty as empty_in, enter as enter_in, arrive as arrive_in};
ghost use Rattle.outstanding_records.specs.Words.{word_of};
ghost use Rattle.outstanding_bridges.specs.Afterwards.{EnteredAfter, ArrivedAfter};

use outstanding_decisions::{Arrived, Entered};
use outstanding_records::{Record, SIZE};

// What emptying and entering answered, and the records afterwards.
#[derive(Drop)]
pub struct EnteredTable {
    pub answer: Entered,
    pub words: [u64; SIZE],
}

// What an arriving reply was answered, and the records afterwards.
#[derive(Drop)]
pub struct ArrivedTable {
    pub answer: Arrived,
    pub words: [u64; SIZE],
}

fn after_entry(answer: Entered, table: [Record; SIZE]) -> EnteredTable
    ensures { (result.answer ≡ answer) × (result.words ≡ map word_of table) }
{
    let words = outstanding_words::words_of(table);
    EnteredTable { answer, words }
}

fn after_arrival(answer: Arrived, table: [Record; SIZE]) -> ArrivedTable
    ensures { (result.answer ≡ answer) × (result.words ≡ map word_of table) }
{
    let words = outstanding_words::words_of(table);
    ArrivedTable { answer, words }
}

// Frees every record.
pub fn empty(table: [Record; SIZE]) -> EnteredTable
    ensures { EnteredAfter (empty_in Record.Free table) result }
{
    let mut records = table;
    let answer = outstanding_table::empty(&mut records);
    after_entry(answer, records)
}

// Enters a request by its id and type, into the first free record. Refuses 20, 3, 10, 11.
pub fn enter(table: [Record; SIZE], id: u32, type_number: u8) -> EnteredTable
    ensures { EnteredAfter (perform (enter_in table id type_number) table) result }
{
    let mut records = table;
    let answer = outstanding_table::enter(&mut records, id, type_number);
    after_entry(answer, records)
}

// Takes an arriving reply: what its reader answers, and its record is free; or a refusal, and no record has changed. Refuses 20,
// what the reader refuses, 12, 13.
pub fn arrive(table: [Record; SIZE], message: &[u8]) -> ArrivedTable
    ensures { ArrivedAfter message.now (perform (arrive_in table (read reply_side message.now)) table) result }
{
    let mut records = table;
    let answer = outstanding_table::arrive(&mut records, message);
    after_arrival(answer, records)
}
