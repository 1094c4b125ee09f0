// Replies, written into a lent buffer: one function for each method's success, with its text or data lent and its numbers by value,
// and one for failures, the getcreds reply and the unknown response each. The success of readdir is in `readdir_writer`.
// All checks stand before the first store, so a refused writer changes no byte.
#![tactic(auto)]

ghost use Rattle.std.specs.Prelude.{◌≡◌, true, false, [], ◌∷◌, ◌++◌, ◌+◌, ◌≤◌, length};
ghost use Rattle.number.specs.BigEndian.{bytes_of};
ghost use Rattle.number.specs.TwosComplement.{bits_of};
ghost use Rattle.method.specs.declared.Method.TheVariants as methods;
ghost use Rattle.layout.specs.Values.{number, signed, run};
ghost use Rattle.layout.specs.Table.{reply, unknown_response, led, plan};
ghost use Rattle.layout.specs.Reading.{fields_place, unknown, failure, success};
ghost use Rattle.layout.specs.Writing.{counts, write};
ghost use Rattle.wire.specs.Values.{attributes_values, statistics_values};
ghost use Rattle.field_writer.specs.Stored.{Puts};
ghost use Rattle.message_writer.specs.Writers.{Writes};
ghost use Rattle.reply_writer.specs.Replying.{replying, allowed, SuccessStarted};

use message_writer::Written;
use method::Method;
use wire::{Attributes, Cursor, FIELDS_PLACE, Header, Refusal, Run, Statistics};

// What a getcreds reply has besides the bytes of its text: header and length.
const BESIDES_CREDS: usize = Header::SIZE + Run::LENGTH_SIZE;

// The bytes of a handle.
const HANDLE_SIZE: usize = 8;

// Where a success is stored from: the start of a buffer of `len` bytes, or the first refusal in document 01's order. `run` is the
// length of its text or data, 0 where it has none, and `fields` is the size of all else behind the result.
// Asks that `fields` is at most 128, so that the sum does not wrap: no method has more than 88.
fn admit(res: i32, texts: bool, counted: bool, run: usize, fields: usize, len: usize) -> Cursor
    requires { fields ≤ 128 }
    ensures { result ≡ allowed res texts counted (run + 0 + (fields_place + fields)) len }
{
    if res < 0 {
        return Cursor::RESULT_SIGN;
    }
    if texts {
        if counted {
            return message_writer::admit(true, run, 0, FIELDS_PLACE + fields, len);
        }
        return Cursor::DATA_LENGTH_MISMATCH;
    }
    Cursor::MALFORMED_TEXT
}

// The header and the result.
fn put_result(out: &mut [u8], c: Cursor, id: u32, type_number: u8, res: i32) -> Cursor
    ensures { Puts out.old c ((bytes_of 4 id ++ bytes_of 1 type_number) ∷ bytes_of 4 (bits_of 4 res) ∷ []) out.new result }
{
    let header = field_writer::put_header(out, c, id, type_number);
    field_writer::put_i32(out, header, res)
}

// The header and the result of a success without text or data, if it passes the checks.
// Asks that `fields` is at most 128, as `admit` does: no method has more than 88.
fn start(out: &mut [u8], id: u32, type_number: u8, res: i32, fields: usize) -> Cursor
    requires { fields ≤ 128 }
    ensures { SuccessStarted true true (fields_place + fields) out.old id type_number res out.new result }
{
    let place = admit(res, true, true, 0, fields, out.len());
    put_result(out, place, id, type_number, res)
}

// A success that is its result alone.
// Asks for the type of such a method: each caller gives its own.
fn write_result(id: u32, type_number: u8, res: i32, out: &mut [u8]) -> Written
    requires { plan reply type_number ≡ led false [] }
    ensures { Writes (write reply success id type_number (signed res ∷ []) true) out.entry out.exit result }
{
    let start = start(out, id, type_number, res, 0);
    message_writer::finish(start)
}

// access: result i32. Refuses 8, 7.
pub fn write_access(id: u32, res: i32, out: &mut [u8]) -> Written
    ensures { Writes (replying methods.Access id (signed res ∷ [])) out.entry out.exit result }
{
    write_result(id, Method::ACCESS_REPLY, res, out)
}

// getattr: result i32, attributes. Refuses 8, 7.
pub fn write_getattr(id: u32, res: i32, attributes: Attributes, out: &mut [u8]) -> Written
    ensures { Writes (replying methods.Getattr id (signed res ∷ attributes_values attributes)) out.entry out.exit result }
{
    let start = start(out, id, Method::GETATTR_REPLY, res, Attributes::SIZE);
    let behind_attributes = structure_writer::put_attributes(out, start, attributes);
    message_writer::finish(behind_attributes)
}

// readlink: result i32, resolved S. Refuses 8, 5, 2, 7.
pub fn write_readlink(id: u32, res: i32, resolved: &[u8], out: &mut [u8]) -> Written
    ensures { Writes (replying methods.Readlink id (signed res ∷ run resolved.now ∷ [])) out.entry out.exit result }
{
    let texts = message_writer::is_text(resolved);
    let place = admit(
        res,
        texts,
        true,
        resolved.len(),
        Run::LENGTH_SIZE,
        out.len(),
    );
    let start = put_result(out, place, id, Method::READLINK_REPLY, res);
    let behind_resolved = field_writer::put_run(out, start, resolved);
    message_writer::finish(behind_resolved)
}

// symlink: result i32. Refuses 8, 7.
pub fn write_symlink(id: u32, res: i32, out: &mut [u8]) -> Written
    ensures { Writes (replying methods.Symlink id (signed res ∷ [])) out.entry out.exit result }
{
    write_result(id, Method::SYMLINK_REPLY, res, out)
}

// link: result i32. Refuses 8, 7.
pub fn write_link(id: u32, res: i32, out: &mut [u8]) -> Written
    ensures { Writes (replying methods.Link id (signed res ∷ [])) out.entry out.exit result }
{
    write_result(id, Method::LINK_REPLY, res, out)
}

// rename: result i32. Refuses 8, 7.
pub fn write_rename(id: u32, res: i32, out: &mut [u8]) -> Written
    ensures { Writes (replying methods.Rename id (signed res ∷ [])) out.entry out.exit result }
{
    write_result(id, Method::RENAME_REPLY, res, out)
}

// chmod: result i32. Refuses 8, 7.
pub fn write_chmod(id: u32, res: i32, out: &mut [u8]) -> Written
    ensures { Writes (replying methods.Chmod id (signed res ∷ [])) out.entry out.exit result }
{
    write_result(id, Method::CHMOD_REPLY, res, out)
}

// chown: result i32. Refuses 8, 7.
pub fn write_chown(id: u32, res: i32, out: &mut [u8]) -> Written
    ensures { Writes (replying methods.Chown id (signed res ∷ [])) out.entry out.exit result }
{
    write_result(id, Method::CHOWN_REPLY, res, out)
}

// truncate: result i32. Refuses 8, 7.
pub fn write_truncate(id: u32, res: i32, out: &mut [u8]) -> Written
    ensures { Writes (replying methods.Truncate id (signed res ∷ [])) out.entry out.exit result }
{
    write_result(id, Method::TRUNCATE_REPLY, res, out)
}

// fsync: result i32. Refuses 8, 7.
pub fn write_fsync(id: u32, res: i32, out: &mut [u8]) -> Written
    ensures { Writes (replying methods.Fsync id (signed res ∷ [])) out.entry out.exit result }
{
    write_result(id, Method::FSYNC_REPLY, res, out)
}

// open: result i32, handle u64. Refuses 8, 7.
pub fn write_open(id: u32, res: i32, handle: u64, out: &mut [u8]) -> Written
    ensures { Writes (replying methods.Open id (signed res ∷ number handle ∷ [])) out.entry out.exit result }
{
    let start = start(out, id, Method::OPEN_REPLY, res, HANDLE_SIZE);
    let behind_handle = field_writer::put_u64(out, start, handle);
    message_writer::finish(behind_handle)
}

// mknod: result i32. Refuses 8, 7.
pub fn write_mknod(id: u32, res: i32, out: &mut [u8]) -> Written
    ensures { Writes (replying methods.Mknod id (signed res ∷ [])) out.entry out.exit result }
{
    write_result(id, Method::MKNOD_REPLY, res, out)
}

// create: result i32, handle u64. Refuses 8, 7.
pub fn write_create(id: u32, res: i32, handle: u64, out: &mut [u8]) -> Written
    ensures { Writes (replying methods.Create id (signed res ∷ number handle ∷ [])) out.entry out.exit result }
{
    let start = start(out, id, Method::CREATE_REPLY, res, HANDLE_SIZE);
    let behind_handle = field_writer::put_u64(out, start, handle);
    message_writer::finish(behind_handle)
}

// release: result i32. Refuses 8, 7.
pub fn write_release(id: u32, res: i32, out: &mut [u8]) -> Written
    ensures { Writes (replying methods.Release id (signed res ∷ [])) out.entry out.exit result }
{
    write_result(id, Method::RELEASE_REPLY, res, out)
}

// unlink: result i32. Refuses 8, 7.
pub fn write_unlink(id: u32, res: i32, out: &mut [u8]) -> Written
    ensures { Writes (replying methods.Unlink id (signed res ∷ [])) out.entry out.exit result }
{
    write_result(id, Method::UNLINK_REPLY, res, out)
}

// read: result i32, data bytes; the result is the length of the data. Refuses 8, 6, 2, 7.
pub fn write_read(id: u32, res: i32, data: &[u8], out: &mut [u8]) -> Written
    ensures { Writes (replying methods.Read id (signed res ∷ run «data».now ∷ [])) out.entry out.exit result }
{
    let counted = result_counts(res, data);
    let place = admit(res, true, counted, data.len(), Run::LENGTH_SIZE, out.len());
    let start = put_result(out, place, id, Method::READ_REPLY, res);
    let behind_data = field_writer::put_run(out, start, data);
    message_writer::finish(behind_data)
}

fn result_counts(res: i32, data: &[u8]) -> bool
    ensures { result ≡ counts (signed res ∷ run «data».now ∷ []) }
{
    if res < 0 {
        return false;
    }
    res as u32 as usize == data.len()
}

// write: result i32. Refuses 8, 7.
pub fn write_write(id: u32, res: i32, out: &mut [u8]) -> Written
    ensures { Writes (replying methods.Write id (signed res ∷ [])) out.entry out.exit result }
{
    write_result(id, Method::WRITE_REPLY, res, out)
}

// mkdir: result i32. Refuses 8, 7.
pub fn write_mkdir(id: u32, res: i32, out: &mut [u8]) -> Written
    ensures { Writes (replying methods.Mkdir id (signed res ∷ [])) out.entry out.exit result }
{
    write_result(id, Method::MKDIR_REPLY, res, out)
}

// rmdir: result i32. Refuses 8, 7.
pub fn write_rmdir(id: u32, res: i32, out: &mut [u8]) -> Written
    ensures { Writes (replying methods.Rmdir id (signed res ∷ [])) out.entry out.exit result }
{
    write_result(id, Method::RMDIR_REPLY, res, out)
}

// statfs: result i32, statistics. Refuses 8, 7.
pub fn write_statfs(id: u32, res: i32, statistics: Statistics, out: &mut [u8]) -> Written
    ensures { Writes (replying methods.Statfs id (signed res ∷ statistics_values statistics)) out.entry out.exit result }
{
    let start = start(out, id, Method::STATFS_REPLY, res, Statistics::SIZE);
    let behind_statistics = structure_writer::put_statistics(out, start, statistics);
    message_writer::finish(behind_statistics)
}

// utimens: result i32. Refuses 8, 7.
pub fn write_utimens(id: u32, res: i32, out: &mut [u8]) -> Written
    ensures { Writes (replying methods.Utimens id (signed res ∷ [])) out.entry out.exit result }
{
    write_result(id, Method::UTIMENS_REPLY, res, out)
}

// getcreds: creds S, no result before it. Refuses 5, 2, 7.
pub fn write_getcreds(id: u32, creds: &[u8], out: &mut [u8]) -> Written
    ensures { Writes (replying methods.Getcreds id (run creds.now ∷ [])) out.entry out.exit result }
{
    let texts = message_writer::is_text(creds);
    let place = message_writer::admit(texts, creds.len(), 0, BESIDES_CREDS, out.len());
    let header = field_writer::put_header(out, place, id, Method::GETCREDS_REPLY);
    let behind_creds = field_writer::put_run(out, header, creds);
    message_writer::finish(behind_creds)
}

// A failure of any method that has a result, by its reply type and its negative result. Refuses 3, 8, 7.
pub fn write_failure(id: u32, type_number: u8, res: i32, out: &mut [u8]) -> Written
    ensures { Writes (write reply failure id type_number (signed res ∷ []) true) out.entry out.exit result }
{
    if type_number < Method::ACCESS_REPLY {
        return Written::Refused {
            number: Refusal::UNEXPECTED_TYPE,
            place: 0,
        };
    }
    if Method::UTIMENS_REPLY < type_number {
        return Written::Refused {
            number: Refusal::UNEXPECTED_TYPE,
            place: 0,
        };
    }
    if res < 0 {
        let place = message_writer::admit(true, 0, 0, FIELDS_PLACE, out.len());
        let behind_result = put_result(out, place, id, type_number, res);
        return message_writer::finish(behind_result);
    }
    Written::Refused {
        number: Refusal::RESULT_SIGN,
        place: 0,
    }
}

// The unknown response: the header alone. Refuses 7.
pub fn write_unknown_response(id: u32, out: &mut [u8]) -> Written
    ensures { Writes (write reply unknown id unknown_response [] true) out.entry out.exit result }
{
    let header = field_writer::put_header(out, Cursor::START, id, Method::UNKNOWN_RESPONSE);
    message_writer::finish(header)
}
