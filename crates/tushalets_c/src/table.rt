// For a host: the table of outstanding requests, in words that the host lends. `outstanding_records` says what a word is.
ghost use Rattle.std.specs.Prelude.{◌≡◌};
ghost use Rattle.outstanding.specs.Calls.{empty as empty_in, enter as enter_in, look as look_at};
ghost use Rattle.outstanding_records.specs.Words.{records as records_of};
ghost use Rattle.outstanding_words.specs.Words.{after_words};
ghost use Rattle.exports.specs.Shown.{reading_of};
ghost use Rattle.exports_outstanding.specs.Shown.{arriving, number_of, shown_of, looked_of};

use exports::TushaletsReading;
use exports_outstanding::TushaletsLooked;

// Frees every record. Answers 0, or the number of a refusal.
#[unsafe(no_mangle)]
pub extern "C" fn tushalets_empty(records: &mut [u64]) -> u32
    ensures value { result ≡ number_of (empty_in 0 records.old).told }
    ensures records_after { records.new ≡ (empty_in 0 records.old).table }
{
    exports_outstanding::tushalets_empty(records)
}

// Enters a request by its id and type. Answers 0, or the number of a refusal.
#[unsafe(no_mangle)]
pub extern "C" fn tushalets_enter(records: &mut [u64], id: u32, type_number: u8) -> u32
    ensures value { result ≡ number_of (enter_in (records_of records.old) id type_number).told }
    ensures records_after { records.new ≡ after_words (enter_in (records_of records.old) id type_number).change records.old }
{
    exports_outstanding::tushalets_enter(records, id, type_number)
}

// Takes an arriving reply: the reading of it, and its record is free; or a refusal, and no word has changed.
#[unsafe(no_mangle)]
pub extern "C" fn tushalets_arrive(records: &mut [u64], message: &[u8]) -> TushaletsReading
    ensures value { result ≡ reading_of (shown_of (arriving records.old message.now).told) }
    ensures records_after { records.new ≡ after_words (arriving records.old message.now).change records.old }
{
    exports_outstanding::tushalets_arrive(records, message)
}

// Shows how many requests are outstanding, and the one of an id.
#[unsafe(no_mangle)]
pub extern "C" fn tushalets_look(records: &[u64], id: u32) -> TushaletsLooked
    ensures { result ≡ looked_of (look_at (records_of records.now) id) }
{
    exports_outstanding::tushalets_look(records, id)
}
