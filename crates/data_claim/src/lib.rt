// A reply to a read never claims a number of bytes other than the number that it carries (demand 2), of the running functions: of the reader
// on any message, and of the writer, whose reply is read.
#![tactic(auto)]

ghost use Rattle.std.specs.Prelude.{take};
ghost use Rattle.layout.specs.Writing.{length_of};
ghost use Rattle.message_writer.specs.Writers.{told_of};
ghost use Rattle.data_claim.specs.Claims.{Carries, ClaimsGiven};

use message_writer::Written;
use reply_reader::ReplyAnswer;

// The answer to a reply, and how many bytes of data it shows.
#[derive(Drop)]
pub struct Carried {
    pub answer: ReplyAnswer,
    pub len: usize,
}

// Reads a reply, and asks for its data.
pub fn read_data(message: &[u8]) -> Carried
    ensures { Carries message.now result }
{
    let answer = reply_reader::read_reply(message);
    let data = reply_parts::data(message, answer);
    Carried {
        answer,
        len: data.len(),
    }
}

// A read reply that was written, and what it is read as.
#[derive(Drop)]
pub struct Claimed {
    pub written: Written,
    pub carried: Carried,
}

// Writes a read reply, and reads what was stored.
pub fn write_then_read(id: u32, res: i32, data: &[u8], out: &mut [u8]) -> Claimed
    ensures carries { Carries (take (length_of (told_of result.written)) out.new) result.carried }
    ensures claims_given { ClaimsGiven id res «data».now out.old out.new result }
{
    let written = reply_writer::write_read(id, res, data, out);
    let carried = read_data(&out[..written.len()]);
    Claimed { written, carried }
}
