// Requests, written into a lent buffer: one function for each method, with its texts and data lent and its numbers by value.
// All checks stand before the first store, so a refused writer changes no byte.
#![tactic(auto)]

ghost use Rattle.std.specs.Prelude.{◌≡◌, true, ◌&&◌, [], ◌∷◌, ◌≤◌};
ghost use Rattle.method.specs.declared.Method.TheVariants as methods;
ghost use Rattle.layout.specs.Values.{number, signed, truth, run};
ghost use Rattle.layout.specs.Table.{request};
ghost use Rattle.layout.specs.Reading.{unknown, valid_by};
ghost use Rattle.layout.specs.Writing.{write};
ghost use Rattle.wire.specs.Values.{rename_values, read_values, write_values, utimens_values};
ghost use Rattle.message_writer.specs.Writers.{Writes};
ghost use Rattle.request_writer.specs.Asking.{asking, RunStarted, RunsStarted};

use message_writer::Written;
use method::Method;
use wire::{Cursor, Header, Refusal, Run, Timestamp};

// What a request has besides its numbers and the bytes of its one run, or of its two: header and lengths.
const BESIDES_RUN: usize = Header::SIZE + Run::LENGTH_SIZE;

const BESIDES_RUNS: usize = Header::SIZE + Run::LENGTH_SIZE + Run::LENGTH_SIZE;

// The header and the one text of a request whose numbers take so many bytes, if it passes the checks.
// Asks for at most 64 bytes of numbers, so that the sum does not wrap: no method has more than 32.
fn start_run(out: &mut [u8], id: u32, type_number: u8, text: &[u8], numbers: usize) -> Cursor
    requires { numbers ≤ 64 }
    ensures { RunStarted text.entry numbers id type_number out.entry out.exit result }
{
    let right = message_writer::is_text(text);
    let place = message_writer::admit(right, text.len(), 0, BESIDES_RUN + numbers, out.len());
    let header = field_writer::put_header(out, place, id, type_number);
    field_writer::put_run(out, header, text)
}

// The same with a second run behind the text, another text or data.
// Asks for at most 64 bytes of numbers too: no request with two runs has more than 16.
fn start_runs(
    out: &mut [u8],
    id: u32,
    type_number: u8,
    text: &[u8],
    second: &[u8],
    second_is_text: bool,
    numbers: usize,
) -> Cursor
    requires { numbers ≤ 64 }
    ensures { RunsStarted text.entry second_is_text second.entry numbers id type_number out.entry out.exit result }
{
    let right = both(
        message_writer::is_text(text),
        is_right(second, second_is_text),
    );
    let place = message_writer::admit(
        right,
        text.len(),
        second.len(),
        BESIDES_RUNS + numbers,
        out.len(),
    );
    let header = field_writer::put_header(out, place, id, type_number);
    let behind = field_writer::put_run(out, header, text);
    field_writer::put_run(out, behind, second)
}

// Whether a run passes its check: text is well-formed, and data is not looked at.
fn is_right(bytes: &[u8], is_text: bool) -> bool
    ensures { result ≡ valid_by is_text bytes.now }
{
    if is_text {
        return message_writer::is_text(bytes);
    }
    true
}

fn both(a: bool, b: bool) -> bool
    ensures { result ≡ (a && b) }
{
    if a {
        return b;
    }
    false
}

// access: path S, mode i8. Refuses 5, 2, 7.
pub fn write_access(id: u32, path: &[u8], mode: i8, out: &mut [u8]) -> Written
    ensures { Writes (asking methods.Access id (run path.now ∷ signed mode ∷ [])) out.entry out.exit result }
{
    let start = start_run(out, id, Method::ACCESS, path, 1);
    let behind_mode = field_writer::put_i8(out, start, mode);
    message_writer::finish(behind_mode)
}

// getattr: path S. Refuses 5, 2, 7.
pub fn write_getattr(id: u32, path: &[u8], out: &mut [u8]) -> Written
    ensures { Writes (asking methods.Getattr id (run path.now ∷ [])) out.entry out.exit result }
{
    let start = start_run(out, id, Method::GETATTR, path, 0);
    message_writer::finish(start)
}

// readlink: path S. Refuses 5, 2, 7.
pub fn write_readlink(id: u32, path: &[u8], out: &mut [u8]) -> Written
    ensures { Writes (asking methods.Readlink id (run path.now ∷ [])) out.entry out.exit result }
{
    let start = start_run(out, id, Method::READLINK, path, 0);
    message_writer::finish(start)
}

// symlink: target S, linkpath S. Refuses 5, 2, 7.
pub fn write_symlink(id: u32, target: &[u8], linkpath: &[u8], out: &mut [u8]) -> Written
    ensures { Writes (asking methods.Symlink id (run target.now ∷ run linkpath.now ∷ [])) out.entry out.exit result }
{
    let start = start_runs(out, id, Method::SYMLINK, target, linkpath, true, 0);
    message_writer::finish(start)
}

// link: old_path S, new_path S. Refuses 5, 2, 7.
pub fn write_link(id: u32, old_path: &[u8], new_path: &[u8], out: &mut [u8]) -> Written
    ensures { Writes (asking methods.Link id (run old_path.now ∷ run new_path.now ∷ [])) out.entry out.exit result }
{
    let start = start_runs(out, id, Method::LINK, old_path, new_path, true, 0);
    message_writer::finish(start)
}

// rename: old_path S, new_path S, flags u8. Refuses 5, 2, 7.
pub fn write_rename(id: u32, old_path: &[u8], new_path: &[u8], flags: u8, out: &mut [u8]) -> Written
    ensures { Writes (asking methods.Rename id (rename_values old_path.now new_path.now flags)) out.entry out.exit result }
{
    let start = start_runs(out, id, Method::RENAME, old_path, new_path, true, 1);
    let behind_flags = field_writer::put_u8(out, start, flags);
    message_writer::finish(behind_flags)
}

// chmod: path S, mode u32. Refuses 5, 2, 7.
pub fn write_chmod(id: u32, path: &[u8], mode: u32, out: &mut [u8]) -> Written
    ensures { Writes (asking methods.Chmod id (run path.now ∷ number mode ∷ [])) out.entry out.exit result }
{
    let start = start_run(out, id, Method::CHMOD, path, 4);
    let behind_mode = field_writer::put_u32(out, start, mode);
    message_writer::finish(behind_mode)
}

// chown: path S, uid u32, gid u32. Refuses 5, 2, 7.
pub fn write_chown(id: u32, path: &[u8], uid: u32, gid: u32, out: &mut [u8]) -> Written
    ensures { Writes (asking methods.Chown id (run path.now ∷ number uid ∷ number gid ∷ [])) out.entry out.exit result }
{
    let start = start_run(out, id, Method::CHOWN, path, 8);
    let behind_uid = field_writer::put_u32(out, start, uid);
    let behind_gid = field_writer::put_u32(out, behind_uid, gid);
    message_writer::finish(behind_gid)
}

// truncate: path S, size u64, handle u64. Refuses 5, 2, 7.
pub fn write_truncate(id: u32, path: &[u8], size: u64, handle: u64, out: &mut [u8]) -> Written
    ensures { Writes (asking methods.Truncate id (run path.now ∷ number size ∷ number handle ∷ [])) out.entry out.exit result }
{
    let start = start_run(out, id, Method::TRUNCATE, path, 16);
    let behind_size = field_writer::put_u64(out, start, size);
    let behind_handle = field_writer::put_u64(out, behind_size, handle);
    message_writer::finish(behind_handle)
}

// fsync: path S, is_datasync bool, handle u64. Refuses 5, 2, 7.
pub fn write_fsync(id: u32, path: &[u8], is_datasync: bool, handle: u64, out: &mut [u8]) -> Written
    ensures { Writes (asking methods.Fsync id (run path.now ∷ truth is_datasync ∷ number handle ∷ [])) out.entry out.exit result }
{
    let start = start_run(out, id, Method::FSYNC, path, 9);
    let behind_is_datasync = field_writer::put_bool(out, start, is_datasync);
    let behind_handle = field_writer::put_u64(out, behind_is_datasync, handle);
    message_writer::finish(behind_handle)
}

// open: path S, flags i32. Refuses 5, 2, 7.
pub fn write_open(id: u32, path: &[u8], flags: i32, out: &mut [u8]) -> Written
    ensures { Writes (asking methods.Open id (run path.now ∷ signed flags ∷ [])) out.entry out.exit result }
{
    let start = start_run(out, id, Method::OPEN, path, 4);
    let behind_flags = field_writer::put_i32(out, start, flags);
    message_writer::finish(behind_flags)
}

// mknod: path S, mode u32, dev u64. Refuses 5, 2, 7.
pub fn write_mknod(id: u32, path: &[u8], mode: u32, dev: u64, out: &mut [u8]) -> Written
    ensures { Writes (asking methods.Mknod id (run path.now ∷ number mode ∷ number dev ∷ [])) out.entry out.exit result }
{
    let start = start_run(out, id, Method::MKNOD, path, 12);
    let behind_mode = field_writer::put_u32(out, start, mode);
    let behind_dev = field_writer::put_u64(out, behind_mode, dev);
    message_writer::finish(behind_dev)
}

// create: path S, mode u32. Refuses 5, 2, 7.
pub fn write_create(id: u32, path: &[u8], mode: u32, out: &mut [u8]) -> Written
    ensures { Writes (asking methods.Create id (run path.now ∷ number mode ∷ [])) out.entry out.exit result }
{
    let start = start_run(out, id, Method::CREATE, path, 4);
    let behind_mode = field_writer::put_u32(out, start, mode);
    message_writer::finish(behind_mode)
}

// release: path S, handle u64. Refuses 5, 2, 7.
pub fn write_release(id: u32, path: &[u8], handle: u64, out: &mut [u8]) -> Written
    ensures { Writes (asking methods.Release id (run path.now ∷ number handle ∷ [])) out.entry out.exit result }
{
    let start = start_run(out, id, Method::RELEASE, path, 8);
    let behind_handle = field_writer::put_u64(out, start, handle);
    message_writer::finish(behind_handle)
}

// unlink: path S. Refuses 5, 2, 7.
pub fn write_unlink(id: u32, path: &[u8], out: &mut [u8]) -> Written
    ensures { Writes (asking methods.Unlink id (run path.now ∷ [])) out.entry out.exit result }
{
    let start = start_run(out, id, Method::UNLINK, path, 0);
    message_writer::finish(start)
}

// read: path S, buffer_size u32, offset u64, handle u64. Refuses 5, 2, 7.
pub fn write_read(
    id: u32,
    path: &[u8],
    buffer_size: u32,
    offset: u64,
    handle: u64,
    out: &mut [u8],
) -> Written
    ensures { Writes (asking methods.Read id (read_values path.now buffer_size offset handle)) out.entry out.exit result }
{
    let start = start_run(out, id, Method::READ, path, 20);
    let behind_buffer_size = field_writer::put_u32(out, start, buffer_size);
    let behind_offset = field_writer::put_u64(out, behind_buffer_size, offset);
    let behind_handle = field_writer::put_u64(out, behind_offset, handle);
    message_writer::finish(behind_handle)
}

// write: path S, data bytes, offset u64, handle u64. Refuses 5, 2, 7.
pub fn write_write(
    id: u32,
    path: &[u8],
    data: &[u8],
    offset: u64,
    handle: u64,
    out: &mut [u8],
) -> Written
    ensures { Writes (asking methods.Write id (write_values path.now «data».now offset handle)) out.entry out.exit result }
{
    let start = start_runs(out, id, Method::WRITE, path, data, false, 16);
    let behind_offset = field_writer::put_u64(out, start, offset);
    let behind_handle = field_writer::put_u64(out, behind_offset, handle);
    message_writer::finish(behind_handle)
}

// mkdir: path S, mode u32. Refuses 5, 2, 7.
pub fn write_mkdir(id: u32, path: &[u8], mode: u32, out: &mut [u8]) -> Written
    ensures { Writes (asking methods.Mkdir id (run path.now ∷ number mode ∷ [])) out.entry out.exit result }
{
    let start = start_run(out, id, Method::MKDIR, path, 4);
    let behind_mode = field_writer::put_u32(out, start, mode);
    message_writer::finish(behind_mode)
}

// readdir: path S. Refuses 5, 2, 7.
pub fn write_readdir(id: u32, path: &[u8], out: &mut [u8]) -> Written
    ensures { Writes (asking methods.Readdir id (run path.now ∷ [])) out.entry out.exit result }
{
    let start = start_run(out, id, Method::READDIR, path, 0);
    message_writer::finish(start)
}

// rmdir: path S. Refuses 5, 2, 7.
pub fn write_rmdir(id: u32, path: &[u8], out: &mut [u8]) -> Written
    ensures { Writes (asking methods.Rmdir id (run path.now ∷ [])) out.entry out.exit result }
{
    let start = start_run(out, id, Method::RMDIR, path, 0);
    message_writer::finish(start)
}

// statfs: path S. Refuses 5, 2, 7.
pub fn write_statfs(id: u32, path: &[u8], out: &mut [u8]) -> Written
    ensures { Writes (asking methods.Statfs id (run path.now ∷ [])) out.entry out.exit result }
{
    let start = start_run(out, id, Method::STATFS, path, 0);
    message_writer::finish(start)
}

// utimens: path S, atime, mtime, handle u64. Refuses 5, 2, 7.
pub fn write_utimens(
    id: u32,
    path: &[u8],
    atime: Timestamp,
    mtime: Timestamp,
    handle: u64,
    out: &mut [u8],
) -> Written
    ensures { Writes (asking methods.Utimens id (utimens_values path.now atime mtime handle)) out.entry out.exit result }
{
    let start = start_run(out, id, Method::UTIMENS, path, 32);
    let behind_atime = structure_writer::put_timestamp(out, start, atime);
    let behind_mtime = structure_writer::put_timestamp(out, behind_atime, mtime);
    let behind_handle = field_writer::put_u64(out, behind_mtime, handle);
    message_writer::finish(behind_handle)
}

// getcreds: no fields. Refuses 7.
pub fn write_getcreds(id: u32, out: &mut [u8]) -> Written
    ensures { Writes (asking methods.Getcreds id []) out.entry out.exit result }
{
    let header = field_writer::put_header(out, Cursor::START, id, Method::GETCREDS);
    message_writer::finish(header)
}

// A request of a type that is no method's: the header alone. Refuses 3, 7.
pub fn write_unknown(id: u32, type_number: u8, out: &mut [u8]) -> Written
    ensures { Writes (write request unknown id type_number [] true) out.entry out.exit result }
{
    match Method::of_request(type_number) {
        Some(_) => Written::Refused {
            number: Refusal::UNEXPECTED_TYPE,
            place: 0,
        },
        None => {
            let header = field_writer::put_header(out, Cursor::START, id, type_number);
            message_writer::finish(header)
        }
    }
}
