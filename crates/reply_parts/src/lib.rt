// The texts and the data of a reply that was read, each as a part of the message itself.
#![tactic(auto, using(crate::proofs::Nameless::success_without_creds), unfolding(layout::specs::Parts::fields_of, method::specs::Methods::of_reply))]

ghost use Rattle.std.specs.Prelude.{◌≡◌, List, ℕ};
ghost use Rattle.layout.specs.Table.{reply as reply_side};
ghost use Rattle.layout.specs.Parts.{part_named};
ghost use Rattle.wire.specs.Runs.{Shows};
ghost use Rattle.reply_reader.specs.Answers.{answer_of};
ghost use Rattle.reply_parts.specs.Parts.{part_in};

use reply_reader::{Reply, ReplyAnswer};
use wire::Run;

// The success that was read; none where the answer is another.
fn reply_of(answer: ReplyAnswer) -> Option<Reply>
    ensures resolved { (m : List ℕ) → part_in m "resolved" result ≡ part_named reply_side "resolved" (answer_of m answer) }
    ensures for_data { (m : List ℕ) → part_in m "data" result ≡ part_named reply_side "data" (answer_of m answer) }
{
    match answer {
        ReplyAnswer::Success { reply, .. } => Some(reply),
        _ => None,
    }
}

// The bytes of the resolved path of a readlink reply, as a part of the message that was answered so. Here and below a message without that field,
// and one that was refused, gives the empty part.
pub fn resolved<'a>(m: &'a [u8], answer: ReplyAnswer) -> &'a [u8]
    ensures { Shows m.entry (part_named reply_side "resolved" (answer_of m.now answer)) result }
{
    match reply_of(answer) {
        Some(Reply::Readlink { resolved }) => wire::bytes_of(m, resolved),
        _ => wire::bytes_of(m, Run::EMPTY),
    }
}

// The bytes of the data of a read reply.
pub fn data<'a>(m: &'a [u8], answer: ReplyAnswer) -> &'a [u8]
    ensures { Shows m.entry (part_named reply_side "data" (answer_of m.now answer)) result }
{
    match reply_of(answer) {
        Some(Reply::Read { data }) => wire::bytes_of(m, data),
        _ => wire::bytes_of(m, Run::EMPTY),
    }
}

// The bytes of the creds of a getcreds reply.
pub fn creds<'a>(m: &'a [u8], answer: ReplyAnswer) -> &'a [u8]
    ensures { Shows m.entry (part_named reply_side "creds" (answer_of m.now answer)) result }
{
    match answer {
        ReplyAnswer::Credentials { creds, .. } => wire::bytes_of(m, creds),
        _ => wire::bytes_of(m, Run::EMPTY),
    }
}
