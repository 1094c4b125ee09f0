// A request of any method, as the reader gives it, written into a lent buffer. What was read is written again by one call.
#![tactic(auto)]

ghost use Rattle.message_writer.specs.Writers.{Writes};
ghost use Rattle.request_rewriter.specs.Rewriting.{rewriting};

use message_writer::Written;
use request_reader::Request;
use request_writer::*;
use wire::bytes_of;

// The runs of `request` are parts of `texts`: the message that was read, or any slice in which the texts and data stand. A run
// that does not lie inside it is written as an empty one. Refuses what the writer of its method refuses.
pub fn write_request(id: u32, request: Request, texts: &[u8], out: &mut [u8]) -> Written
    ensures { Writes (rewriting request id texts.now) out.entry out.exit result }
{
    match request {
        Request::Access { path, mode } => write_access(id, bytes_of(texts, path), mode, out),
        Request::Getattr { path } => write_getattr(id, bytes_of(texts, path), out),
        Request::Readlink { path } => write_readlink(id, bytes_of(texts, path), out),
        Request::Symlink { target, linkpath } => write_symlink(
            id,
            bytes_of(texts, target),
            bytes_of(texts, linkpath),
            out,
        ),
        Request::Link { old_path, new_path } => write_link(
            id,
            bytes_of(texts, old_path),
            bytes_of(texts, new_path),
            out,
        ),
        Request::Rename {
            old_path,
            new_path,
            flags,
        } => write_rename(
            id,
            bytes_of(texts, old_path),
            bytes_of(texts, new_path),
            flags,
            out,
        ),
        Request::Chmod { path, mode } => write_chmod(id, bytes_of(texts, path), mode, out),
        Request::Chown { path, uid, gid } => write_chown(id, bytes_of(texts, path), uid, gid, out),
        Request::Truncate { path, size, handle } => write_truncate(
            id,
            bytes_of(texts, path),
            size,
            handle,
            out,
        ),
        Request::Fsync {
            path,
            is_datasync,
            handle,
        } => write_fsync(id, bytes_of(texts, path), is_datasync, handle, out),
        Request::Open { path, flags } => write_open(id, bytes_of(texts, path), flags, out),
        Request::Mknod { path, mode, dev } => write_mknod(
            id,
            bytes_of(texts, path),
            mode,
            dev,
            out,
        ),
        Request::Create { path, mode } => write_create(id, bytes_of(texts, path), mode, out),
        Request::Release { path, handle } => write_release(id, bytes_of(texts, path), handle, out),
        Request::Unlink { path } => write_unlink(id, bytes_of(texts, path), out),
        Request::Read {
            path,
            buffer_size,
            offset,
            handle,
        } => write_read(id, bytes_of(texts, path), buffer_size, offset, handle, out),
        Request::Write {
            path,
            data,
            offset,
            handle,
        } => write_write(
            id,
            bytes_of(texts, path),
            bytes_of(texts, data),
            offset,
            handle,
            out,
        ),
        Request::Mkdir { path, mode } => write_mkdir(id, bytes_of(texts, path), mode, out),
        Request::Readdir { path } => write_readdir(id, bytes_of(texts, path), out),
        Request::Rmdir { path } => write_rmdir(id, bytes_of(texts, path), out),
        Request::Statfs { path } => write_statfs(id, bytes_of(texts, path), out),
        Request::Utimens {
            path,
            atime,
            mtime,
            handle,
        } => write_utimens(id, bytes_of(texts, path), atime, mtime, handle, out),
        Request::Getcreds => write_getcreds(id, out),
    }
}
