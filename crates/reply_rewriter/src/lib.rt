// The success reply of any method but getcreds, as the reader gives it, written into a lent buffer. What was read is written again by
// one call.
#![tactic(auto)]

ghost use Rattle.message_writer.specs.Writers.{Writes};
ghost use Rattle.reply_rewriter.specs.Rewriting.{name_texts, rewriting, rewriting_names, Met};

use message_writer::Written;
use method::Method;
use readdir_writer::{Next, name_at};
use reply_reader::Reply;
use reply_writer::*;
use wire::{FIRST_NAME, Refusal, Run, bytes_of};

// The text, data or names of `reply` stand in `m`: the message that was read, or any slice that has them at the same places. A run that
// does not lie inside it is written as an empty one. Refuses what the writer of its method refuses.
pub fn write_reply(id: u32, res: i32, reply: Reply, m: &[u8], out: &mut [u8]) -> Written
    ensures { Writes (rewriting reply id res m.now) out.entry out.exit result }
{
    match reply {
        Reply::Access => write_access(id, res, out),
        Reply::Getattr { attributes } => write_getattr(id, res, attributes, out),
        Reply::Readlink { resolved } => write_readlink(id, res, bytes_of(m, resolved), out),
        Reply::Symlink => write_symlink(id, res, out),
        Reply::Link => write_link(id, res, out),
        Reply::Rename => write_rename(id, res, out),
        Reply::Chmod => write_chmod(id, res, out),
        Reply::Chown => write_chown(id, res, out),
        Reply::Truncate => write_truncate(id, res, out),
        Reply::Fsync => write_fsync(id, res, out),
        Reply::Open { handle } => write_open(id, res, handle, out),
        Reply::Mknod => write_mknod(id, res, out),
        Reply::Create { handle } => write_create(id, res, handle, out),
        Reply::Release => write_release(id, res, out),
        Reply::Unlink => write_unlink(id, res, out),
        Reply::Read { data } => write_read(id, res, bytes_of(m, data), out),
        Reply::Write => write_write(id, res, out),
        Reply::Mkdir => write_mkdir(id, res, out),
        Reply::Readdir { count } => write_readdir(id, res, m, count, out),
        Reply::Rmdir => write_rmdir(id, res, out),
        Reply::Statfs { statistics } => write_statfs(id, res, statistics, out),
        Reply::Utimens => write_utimens(id, res, out),
    }
}

// The success reply of readdir, its names as they stand in the message `m`: these, with their lengths, are copied as one piece.
// `count` is the reader's. A name that does not fit into the message ends the names, so a count that was made up does no harm, and
// the count that is written is that of the names met. Refuses 8, 5, 2, 7.
pub fn write_readdir(id: u32, res: i32, m: &[u8], count: u32, out: &mut [u8]) -> Written
    ensures { Writes (rewriting_names count id res m.now) out.entry out.exit result }
{
    if res < 0 {
        return Written::Refused {
            number: Refusal::RESULT_SIGN,
            place: 0,
        };
    }
    let names = meet_names(m, count);
    let len = names.len;
    let start = message_writer::admit(names.texts, len, 0, FIRST_NAME, out.len());
    let header = field_writer::put_header(out, start, id, Method::READDIR_REPLY);
    let behind_result = field_writer::put_i32(out, header, res);
    let behind_count = field_writer::put_u32(out, behind_result, names.count);
    let run = Run {
        start: FIRST_NAME,
        len,
    };
    let behind_names = field_writer::put_all(out, behind_count, bytes_of(m, run));
    message_writer::finish(behind_names)
}

// The names that were met in a message: how many they are, whether each is well-formed text, and how many bytes of the message they
// and their lengths fill.
#[derive(Drop)]
struct Names {
    count: u32,
    texts: bool,
    len: usize,
}

// Meets the names one after another, until there are `count` or one does not fit into the message.
fn meet_names(m: &[u8], count: u32) -> Names
    ensures { Met m.now (name_texts m.now count) result }
{
    let mut left = count;
    let mut texts = true;
    let mut len = 0;
    while 0 < left {
        let next = name_at(m, FIRST_NAME + len);
        let Next::Name { start, len: size } = next else {
            return Names {
                count: count - left,
                texts,
                len,
            };
        };
        let end = start + size as usize;
        texts = texts & message_writer::is_text(&m[start..end]);
        len = end - FIRST_NAME;
        left -= 1;
    }
    Names { count, texts, len }
}
