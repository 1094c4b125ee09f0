// The lines of a request's fields, added at a cursor of a lent buffer.
#![tactic(auto)]

ghost use Rattle.std.specs.Prelude.{[], ◌∷◌};
ghost use Rattle.method.specs.declared.Method.TheVariants as methods;
ghost use Rattle.layout.specs.Values.{number as natural, signed, truth, run};
ghost use Rattle.wire.specs.Runs.{part_of};
ghost use Rattle.wire.specs.Values.{rename_values, read_values, write_values, utimens_values};
ghost use Rattle.request_reader.specs.Answers.{method_of, values_of};
ghost use Rattle.request_lines.specs.FieldLines.{AddsFields};

use request_reader::Request;
use wire::{Cursor, Run, Timestamp};

// The lines of a request's fields, in page order. Refuses 7.
pub fn put_fields(out: &mut [u8], c: Cursor, request: Request) -> Cursor
    ensures { AddsFields out.old c (method_of request) (values_of request) out.new result }
{
    match request {
        Request::Access { path, mode } => put_access(out, c, path, mode),
        Request::Getattr { path } => put_path(out, c, path),
        Request::Readlink { path } => put_path(out, c, path),
        Request::Symlink { target, linkpath } => put_symlink(out, c, target, linkpath),
        Request::Link { old_path, new_path } => put_link(out, c, old_path, new_path),
        Request::Rename {
            old_path,
            new_path,
            flags,
        } => put_rename(out, c, old_path, new_path, flags),
        Request::Chmod { path, mode } => put_path_mode(out, c, path, mode),
        Request::Chown { path, uid, gid } => put_chown(out, c, path, uid, gid),
        Request::Truncate { path, size, handle } => put_truncate(out, c, path, size, handle),
        Request::Fsync {
            path,
            is_datasync,
            handle,
        } => put_fsync(out, c, path, is_datasync, handle),
        Request::Open { path, flags } => put_open(out, c, path, flags),
        Request::Mknod { path, mode, dev } => put_mknod(out, c, path, mode, dev),
        Request::Create { path, mode } => put_path_mode(out, c, path, mode),
        Request::Release { path, handle } => put_release(out, c, path, handle),
        Request::Unlink { path } => put_path(out, c, path),
        Request::Read {
            path,
            buffer_size,
            offset,
            handle,
        } => put_read(out, c, path, buffer_size, offset, handle),
        Request::Write {
            path,
            data,
            offset,
            handle,
        } => put_write(out, c, path, data, offset, handle),
        Request::Mkdir { path, mode } => put_path_mode(out, c, path, mode),
        Request::Readdir { path } => put_path(out, c, path),
        Request::Rmdir { path } => put_path(out, c, path),
        Request::Statfs { path } => put_path(out, c, path),
        Request::Utimens {
            path,
            atime,
            mtime,
            handle,
        } => put_utimens(out, c, path, atime, mtime, handle),
        Request::Getcreds => c,
    }
}

fn put_path(out: &mut [u8], c: Cursor, path: Run) -> Cursor
    ensures { AddsFields out.old c methods.Getattr (run (part_of path) ∷ []) out.new result }
{
    lines::put_number(out, c, b"path", path.len as u64)
}

fn put_path_mode(out: &mut [u8], c: Cursor, path: Run, mode: u32) -> Cursor
    ensures { AddsFields out.old c methods.Chmod (run (part_of path) ∷ natural mode ∷ []) out.new result }
{
    let behind_path = lines::put_number(out, c, b"path", path.len as u64);
    lines::put_number(out, behind_path, b"mode", mode as u64)
}

fn put_access(out: &mut [u8], c: Cursor, path: Run, mode: i8) -> Cursor
    ensures { AddsFields out.old c methods.Access (run (part_of path) ∷ signed mode ∷ []) out.new result }
{
    let behind_path = lines::put_number(out, c, b"path", path.len as u64);
    lines::put_signed(out, behind_path, b"mode", mode as i32)
}

fn put_symlink(out: &mut [u8], c: Cursor, target: Run, linkpath: Run) -> Cursor
    ensures { AddsFields out.old c methods.Symlink (run (part_of target) ∷ run (part_of linkpath) ∷ []) out.new result }
{
    let behind_target = lines::put_number(out, c, b"target", target.len as u64);
    lines::put_number(out, behind_target, b"linkpath", linkpath.len as u64)
}

fn put_link(out: &mut [u8], c: Cursor, old_path: Run, new_path: Run) -> Cursor
    ensures { AddsFields out.old c methods.Link (run (part_of old_path) ∷ run (part_of new_path) ∷ []) out.new result }
{
    let behind_old_path = lines::put_number(out, c, b"old_path", old_path.len as u64);
    lines::put_number(out, behind_old_path, b"new_path", new_path.len as u64)
}

fn put_rename(out: &mut [u8], c: Cursor, old_path: Run, new_path: Run, flags: u8) -> Cursor
    ensures { AddsFields out.old c methods.Rename (rename_values (part_of old_path) (part_of new_path) flags) out.new result }
{
    let behind_old_path = lines::put_number(out, c, b"old_path", old_path.len as u64);
    let behind_new_path = lines::put_number(out, behind_old_path, b"new_path", new_path.len as u64);
    lines::put_number(out, behind_new_path, b"flags", flags as u64)
}

fn put_chown(out: &mut [u8], c: Cursor, path: Run, uid: u32, gid: u32) -> Cursor
    ensures { AddsFields out.old c methods.Chown (run (part_of path) ∷ natural uid ∷ natural gid ∷ []) out.new result }
{
    let behind_path = lines::put_number(out, c, b"path", path.len as u64);
    let behind_uid = lines::put_number(out, behind_path, b"uid", uid as u64);
    lines::put_number(out, behind_uid, b"gid", gid as u64)
}

fn put_truncate(out: &mut [u8], c: Cursor, path: Run, size: u64, handle: u64) -> Cursor
    ensures { AddsFields out.old c methods.Truncate (run (part_of path) ∷ natural size ∷ natural handle ∷ []) out.new result }
{
    let behind_path = lines::put_number(out, c, b"path", path.len as u64);
    let behind_size = lines::put_number(out, behind_path, b"size", size);
    lines::put_number(out, behind_size, b"handle", handle)
}

fn put_fsync(out: &mut [u8], c: Cursor, path: Run, is_datasync: bool, handle: u64) -> Cursor
    ensures { AddsFields out.old c methods.Fsync (run (part_of path) ∷ truth is_datasync ∷ natural handle ∷ []) out.new result }
{
    let behind_path = lines::put_number(out, c, b"path", path.len as u64);
    let behind_is_datasync = lines::put_flag(out, behind_path, b"is_datasync", is_datasync);
    lines::put_number(out, behind_is_datasync, b"handle", handle)
}

fn put_open(out: &mut [u8], c: Cursor, path: Run, flags: i32) -> Cursor
    ensures { AddsFields out.old c methods.Open (run (part_of path) ∷ signed flags ∷ []) out.new result }
{
    let behind_path = lines::put_number(out, c, b"path", path.len as u64);
    lines::put_signed(out, behind_path, b"flags", flags)
}

fn put_mknod(out: &mut [u8], c: Cursor, path: Run, mode: u32, dev: u64) -> Cursor
    ensures { AddsFields out.old c methods.Mknod (run (part_of path) ∷ natural mode ∷ natural dev ∷ []) out.new result }
{
    let behind_path = lines::put_number(out, c, b"path", path.len as u64);
    let behind_mode = lines::put_number(out, behind_path, b"mode", mode as u64);
    lines::put_number(out, behind_mode, b"dev", dev)
}

fn put_release(out: &mut [u8], c: Cursor, path: Run, handle: u64) -> Cursor
    ensures { AddsFields out.old c methods.Release (run (part_of path) ∷ natural handle ∷ []) out.new result }
{
    let behind_path = lines::put_number(out, c, b"path", path.len as u64);
    lines::put_number(out, behind_path, b"handle", handle)
}

fn put_read(
    out: &mut [u8],
    c: Cursor,
    path: Run,
    buffer_size: u32,
    offset: u64,
    handle: u64,
) -> Cursor
    ensures { AddsFields out.old c methods.Read (read_values (part_of path) buffer_size offset handle) out.new result }
{
    let behind_path = lines::put_number(out, c, b"path", path.len as u64);
    let behind_buffer_size = lines::put_number(
        out,
        behind_path,
        b"buffer_size",
        buffer_size as u64,
    );
    let behind_offset = lines::put_number(out, behind_buffer_size, b"offset", offset);
    lines::put_number(out, behind_offset, b"handle", handle)
}

fn put_write(out: &mut [u8], c: Cursor, path: Run, data: Run, offset: u64, handle: u64) -> Cursor
    ensures { AddsFields out.old c methods.Write (write_values (part_of path) (part_of «data») offset handle) out.new result }
{
    let behind_path = lines::put_number(out, c, b"path", path.len as u64);
    let behind_data = lines::put_number(out, behind_path, b"data", data.len as u64);
    let behind_offset = lines::put_number(out, behind_data, b"offset", offset);
    lines::put_number(out, behind_offset, b"handle", handle)
}

fn put_utimens(
    out: &mut [u8],
    c: Cursor,
    path: Run,
    atime: Timestamp,
    mtime: Timestamp,
    handle: u64,
) -> Cursor
    ensures { AddsFields out.old c methods.Utimens (utimens_values (part_of path) atime mtime handle) out.new result }
{
    let behind_path = lines::put_number(out, c, b"path", path.len as u64);
    let behind_atime = lines::put_time(out, behind_path, b"atime", b"atime.nsec", atime);
    let behind_mtime = lines::put_time(out, behind_atime, b"mtime", b"mtime.nsec", mtime);
    lines::put_number(out, behind_mtime, b"handle", handle)
}
