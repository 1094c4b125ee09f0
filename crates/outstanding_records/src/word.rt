// A record as a word of 64 bits.
ghost use Rattle.std.specs.Prelude.{◌≡◌};
ghost use Rattle.outstanding_records.specs.Words.{word_of, type_in, record_of};

use crate::{Record, Request};

// 2 to the 32nd, the 40th, the 48th: where the type begins, the eight bits that are kept for a tenant, and the mark of a held record.
const TYPE_UNIT: u64 = 0x1_0000_0000;

const TENANT_UNIT: u64 = 0x100_0000_0000;

const HELD_MARK: u64 = 0x1_0000_0000_0000;

// A type that no sound table holds.
const NO_TYPE: u8 = 0xff;

// The values of a byte.
const BYTE: u64 = 0x100;

// The word of a record, which is read as the record again.
#[tactic(auto, using(crate::proofs::Words::word_read), unfolding(crate::specs::Words::word_of, crate::specs::Words::record_of))]
impl From<Record> for u64 {
    ghost from_gives = { λ r w. (w ≡ word_of r) × (record_of w ≡ r) };

    fn from(r: Record) -> u64 {
        match r {
            Record::Free => 0,
            Record::Held { id, request } => {
                HELD_MARK + u64::from(request.type_number) * TYPE_UNIT + u64::from(id)
            }
        }
    }
}

// The record that a word is. A word that no record gives is read as one that no sound table holds.
#[tactic(auto, unfolding(crate::specs::Words::record_of))]
impl From<u64> for Record {
    ghost from_gives = { λ w r. r ≡ record_of w };

    fn from(w: u64) -> Record {
        if w == 0 {
            return Record::Free;
        }
        let request = Request {
            type_number: type_in(w),
        };
        Record::Held {
            id: (w % TYPE_UNIT) as u32,
            request,
        }
    }
}

fn type_in(w: u64) -> u8
    ensures { result ≡ type_in w }
{
    if w / TENANT_UNIT != HELD_MARK / TENANT_UNIT {
        return NO_TYPE;
    }
    (w / TYPE_UNIT % BYTE) as u8
}
