// For a host: replies written. The fields behind the result are given by numbers, in the order of the page and each in the low bits of its
// word, and by slices for text, data and names. Numbers behind the last field, and slices that the type does not have, are not looked at.
#![tactic(auto)]

ghost use Rattle.std.specs.Prelude.{◌≡◌, [], ◌∷◌, true};
ghost use Rattle.layout.specs.Table.{reply, unknown_response};
ghost use Rattle.layout.specs.Values.{signed};
ghost use Rattle.layout.specs.Reading.{unknown, failure};
ghost use Rattle.layout.specs.Writing.{write};
ghost use Rattle.message_writer.specs.Writers.{Writes};
ghost use Rattle.exports.specs.Given.{success_lent};
ghost use Rattle.exports.specs.Shown.{written_of};

use exports::TushaletsWritten;
use exports_values::*;
use message_writer::Written;
use method::Method;

// A success. `run` is its text or data. The names of a readdir reply are `run`, one behind the other, and `lengths`; every other
// reply leaves `lengths` aside. A getcreds reply has no result and leaves `res` aside.
pub fn tushalets_write_reply(
    id: u32,
    type_number: u8,
    res: i32,
    numbers: &[u64; 14],
    run: &[u8],
    lengths: &[u32],
    out: &mut [u8],
) -> TushaletsWritten
    ensures value { result ≡ written_of (success_lent id type_number res numbers.entry run.entry lengths.entry out.old).told }
    ensures out_after { out.new ≡ (success_lent id type_number res numbers.entry run.entry lengths.entry out.old).buffer }
{
    let written = write_success(id, type_number, res, numbers, run, lengths, out);
    TushaletsWritten::of(written)
}

// A failure: nine bytes.
pub fn tushalets_write_failure(
    id: u32,
    type_number: u8,
    code: i32,
    out: &mut [u8],
) -> TushaletsWritten
    ensures value { result ≡ written_of (write reply failure id type_number (signed code ∷ []) true out.old).told }
    ensures out_after { out.new ≡ (write reply failure id type_number (signed code ∷ []) true out.old).buffer }
{
    let written = reply_writer::write_failure(id, type_number, code, out);
    TushaletsWritten::of(written)
}

// The unknown response: five bytes.
pub fn tushalets_write_unknown_response(id: u32, out: &mut [u8]) -> TushaletsWritten
    ensures value { result ≡ written_of (write reply unknown id unknown_response [] true out.old).told }
    ensures out_after { out.new ≡ (write reply unknown id unknown_response [] true out.old).buffer }
{
    let written = reply_writer::write_unknown_response(id, out);
    TushaletsWritten::of(written)
}

// The writer of each type's success.
fn write_success(
    id: u32,
    type_number: u8,
    res: i32,
    numbers: &[u64; 14],
    run: &[u8],
    lengths: &[u32],
    out: &mut [u8],
) -> Written
    ensures { Writes (success_lent id type_number res numbers.entry run.entry lengths.entry) out.entry out.exit result }
{
    match type_number {
        Method::ACCESS_REPLY => reply_writer::write_access(id, res, out),
        Method::GETATTR_REPLY => {
            reply_writer::write_getattr(id, res, attributes_of(numbers), out)
        }
        Method::READLINK_REPLY => reply_writer::write_readlink(id, res, run, out),
        Method::SYMLINK_REPLY => reply_writer::write_symlink(id, res, out),
        Method::LINK_REPLY => reply_writer::write_link(id, res, out),
        Method::RENAME_REPLY => reply_writer::write_rename(id, res, out),
        Method::CHMOD_REPLY => reply_writer::write_chmod(id, res, out),
        Method::CHOWN_REPLY => reply_writer::write_chown(id, res, out),
        Method::TRUNCATE_REPLY => reply_writer::write_truncate(id, res, out),
        Method::FSYNC_REPLY => reply_writer::write_fsync(id, res, out),
        Method::OPEN_REPLY => reply_writer::write_open(id, res, numbers[0], out),
        Method::MKNOD_REPLY => reply_writer::write_mknod(id, res, out),
        Method::CREATE_REPLY => reply_writer::write_create(id, res, numbers[0], out),
        Method::RELEASE_REPLY => reply_writer::write_release(id, res, out),
        Method::UNLINK_REPLY => reply_writer::write_unlink(id, res, out),
        Method::READ_REPLY => reply_writer::write_read(id, res, run, out),
        Method::WRITE_REPLY => reply_writer::write_write(id, res, out),
        Method::MKDIR_REPLY => reply_writer::write_mkdir(id, res, out),
        Method::READDIR_REPLY => readdir_writer::write_readdir(id, res, run, lengths, out),
        Method::RMDIR_REPLY => reply_writer::write_rmdir(id, res, out),
        Method::STATFS_REPLY => { reply_writer::write_statfs(id, res, statistics_of(numbers), out) }
        Method::UTIMENS_REPLY => reply_writer::write_utimens(id, res, out),
        Method::GETCREDS_REPLY => reply_writer::write_getcreds(id, run, out),
        _ => unexpected(),
    }
}
