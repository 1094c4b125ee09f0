// The request reader: the header, then the fields of the method, and one answer.
#![tactic(auto)]

ghost use Rattle.std.specs.Prelude.{◌≡◌};
ghost use Rattle.method.specs.declared.Method.TheVariants.{Access, Getattr, Readlink, Symlink, Link, Rename, Chmod, Chown, Truncate, Fsync, Open, Mknod, Create, Release, Unlink, Read, Write, Mkdir, Readdir, Rmdir, Statfs, Utimens, Getcreds};
ghost use Rattle.method.specs.Methods.{request_number};
ghost use Rattle.layout.specs.Table.{request as request_side};
ghost use Rattle.layout.specs.Reading.{read, behind_header};
ghost use Rattle.request_reader.specs.Answers.{method_of, answer_of, answer_at, Finished};

use method::Method;
use wire::{Cursor, Header, Refusal, Run, Timestamp};

// A request of each method, its fields by the row of document 01's table, which document 02, Item 3, amends for write, and its numbers at their
// own types. A text or data field is a run: a part of the message.
#[derive(Clone, Copy)]
pub enum Request {
    // access: path S, mode i8.
    Access {
        path: Run,
        mode: i8,
    },
    // getattr: path S.
    Getattr {
        path: Run,
    },
    // readlink: path S.
    Readlink {
        path: Run,
    },
    // symlink: target S, linkpath S.
    Symlink {
        target: Run,
        linkpath: Run,
    },
    // link: old_path S, new_path S.
    Link {
        old_path: Run,
        new_path: Run,
    },
    // rename: old_path S, new_path S, flags u8.
    Rename {
        old_path: Run,
        new_path: Run,
        flags: u8,
    },
    // chmod: path S, mode u32.
    Chmod {
        path: Run,
        mode: u32,
    },
    // chown: path S, uid u32, gid u32.
    Chown {
        path: Run,
        uid: u32,
        gid: u32,
    },
    // truncate: path S, size u64, handle u64.
    Truncate {
        path: Run,
        size: u64,
        handle: u64,
    },
    // fsync: path S, is_datasync bool, handle u64.
    Fsync {
        path: Run,
        is_datasync: bool,
        handle: u64,
    },
    // open: path S, flags i32.
    Open {
        path: Run,
        flags: i32,
    },
    // mknod: path S, mode u32, dev u64.
    Mknod {
        path: Run,
        mode: u32,
        dev: u64,
    },
    // create: path S, mode u32.
    Create {
        path: Run,
        mode: u32,
    },
    // release: path S, handle u64.
    Release {
        path: Run,
        handle: u64,
    },
    // unlink: path S.
    Unlink {
        path: Run,
    },
    // read: path S, buffer_size u32, offset u64, handle u64.
    Read {
        path: Run,
        buffer_size: u32,
        offset: u64,
        handle: u64,
    },
    // write: path S, data bytes, offset u64, handle u64.
    Write {
        path: Run,
        data: Run,
        offset: u64,
        handle: u64,
    },
    // mkdir: path S, mode u32.
    Mkdir {
        path: Run,
        mode: u32,
    },
    // readdir: path S.
    Readdir {
        path: Run,
    },
    // rmdir: path S.
    Rmdir {
        path: Run,
    },
    // statfs: path S.
    Statfs {
        path: Run,
    },
    // utimens: path S, atime, mtime, handle u64.
    Utimens {
        path: Run,
        atime: Timestamp,
        mtime: Timestamp,
        handle: u64,
    },
    // getcreds: no fields.
    Getcreds,
}

impl Request {
    // The method of a request.
    pub fn method(self) -> Method
        ensures { result ≡ method_of self }
    {
        match self {
            Request::Access { .. } => Method::Access,
            Request::Getattr { .. } => Method::Getattr,
            Request::Readlink { .. } => Method::Readlink,
            Request::Symlink { .. } => Method::Symlink,
            Request::Link { .. } => Method::Link,
            Request::Rename { .. } => Method::Rename,
            Request::Chmod { .. } => Method::Chmod,
            Request::Chown { .. } => Method::Chown,
            Request::Truncate { .. } => Method::Truncate,
            Request::Fsync { .. } => Method::Fsync,
            Request::Open { .. } => Method::Open,
            Request::Mknod { .. } => Method::Mknod,
            Request::Create { .. } => Method::Create,
            Request::Release { .. } => Method::Release,
            Request::Unlink { .. } => Method::Unlink,
            Request::Read { .. } => Method::Read,
            Request::Write { .. } => Method::Write,
            Request::Mkdir { .. } => Method::Mkdir,
            Request::Readdir { .. } => Method::Readdir,
            Request::Rmdir { .. } => Method::Rmdir,
            Request::Statfs { .. } => Method::Statfs,
            Request::Utimens { .. } => Method::Utimens,
            Request::Getcreds => Method::Getcreds,
        }
    }
}

// What reading a request comes to. `known` is the length of the known part.
#[derive(Clone, Copy)]
pub enum RequestAnswer {
    // A request of a method.
    Known {
        id: u32,
        request: Request,
        known: usize,
    },
    // A request of a type that is no method's. The header is all that is known.
    Unknown {
        id: u32,
        type_number: u8,
        known: usize,
    },
    // Document 01's number of refusal, and its place.
    Refused {
        number: u8,
        place: usize,
    },
}

// The answer to a message. No message needs a check beforehand. Refuses 1, 2, then 4 and 5 field by field.
pub fn read_request(m: &[u8]) -> RequestAnswer
    ensures { answer_of result ≡ read request_side m.now }
{
    let header = field_reader::read_header(m);
    let next = header.next;
    let code = next.code;
    let at = next.at;
    if code != Refusal::NONE {
        return RequestAnswer::Refused {
            number: code,
            place: at,
        };
    }
    read_body(m, header.value.id, header.value.type_number)
}

// The answer to a message of this id and type, whose fields begin behind the header.
fn read_body(m: &[u8], id: u32, type_number: u8) -> RequestAnswer
    ensures { answer_of result ≡ behind_header request_side id type_number m.now }
{
    let c = Cursor::BEHIND_HEADER;
    match type_number {
        Method::ACCESS => read_access(m, c, id),
        Method::GETATTR => read_getattr(m, c, id),
        Method::READLINK => read_readlink(m, c, id),
        Method::SYMLINK => read_symlink(m, c, id),
        Method::LINK => read_link(m, c, id),
        Method::RENAME => read_rename(m, c, id),
        Method::CHMOD => read_chmod(m, c, id),
        Method::CHOWN => read_chown(m, c, id),
        Method::TRUNCATE => read_truncate(m, c, id),
        Method::FSYNC => read_fsync(m, c, id),
        Method::OPEN => read_open(m, c, id),
        Method::MKNOD => read_mknod(m, c, id),
        Method::CREATE => read_create(m, c, id),
        Method::RELEASE => read_release(m, c, id),
        Method::UNLINK => read_unlink(m, c, id),
        Method::READ => read_read(m, c, id),
        Method::WRITE => read_write(m, c, id),
        Method::MKDIR => read_mkdir(m, c, id),
        Method::READDIR => read_readdir(m, c, id),
        Method::RMDIR => read_rmdir(m, c, id),
        Method::STATFS => read_statfs(m, c, id),
        Method::UTIMENS => read_utimens(m, c, id),
        Method::GETCREDS => read_getcreds(m, c, id),
        _ => RequestAnswer::Unknown {
            id,
            type_number,
            known: Header::SIZE,
        },
    }
}

// The answer by the cursor behind the last field.
fn finish(id: u32, request: Request, c: Cursor) -> RequestAnswer
    ensures { Finished id request c (answer_of result) }
{
    let code = c.code;
    let at = c.at;
    if code == Refusal::NONE {
        RequestAnswer::Known {
            id,
            request,
            known: at,
        }
    } else {
        RequestAnswer::Refused {
            number: code,
            place: at,
        }
    }
}

// access: path S, mode i8. Refuses 4, 5.
fn read_access(m: &[u8], c: Cursor, id: u32) -> RequestAnswer
    ensures { answer_of result ≡ answer_at m.now c id (request_number Access) }
{
    let path = field_reader::string_at(m, c);
    let mode = field_reader::i8_at(m, path.next);
    let path_value = path.value;
    finish(
        id,
        Request::Access {
            path: path_value,
            mode: mode.value,
        },
        mode.next,
    )
}

// getattr: path S. Refuses 4, 5.
fn read_getattr(m: &[u8], c: Cursor, id: u32) -> RequestAnswer
    ensures { answer_of result ≡ answer_at m.now c id (request_number Getattr) }
{
    let path = field_reader::string_at(m, c);
    let path_value = path.value;
    finish(id, Request::Getattr { path: path_value }, path.next)
}

// readlink: path S. Refuses 4, 5.
fn read_readlink(m: &[u8], c: Cursor, id: u32) -> RequestAnswer
    ensures { answer_of result ≡ answer_at m.now c id (request_number Readlink) }
{
    let path = field_reader::string_at(m, c);
    let path_value = path.value;
    finish(id, Request::Readlink { path: path_value }, path.next)
}

// symlink: target S, linkpath S. Refuses 4, 5.
fn read_symlink(m: &[u8], c: Cursor, id: u32) -> RequestAnswer
    ensures { answer_of result ≡ answer_at m.now c id (request_number Symlink) }
{
    let target = field_reader::string_at(m, c);
    let linkpath = field_reader::string_at(m, target.next);
    let target_value = target.value;
    let linkpath_value = linkpath.value;
    finish(
        id,
        Request::Symlink {
            target: target_value,
            linkpath: linkpath_value,
        },
        linkpath.next,
    )
}

// link: old_path S, new_path S. Refuses 4, 5.
fn read_link(m: &[u8], c: Cursor, id: u32) -> RequestAnswer
    ensures { answer_of result ≡ answer_at m.now c id (request_number Link) }
{
    let old_path = field_reader::string_at(m, c);
    let new_path = field_reader::string_at(m, old_path.next);
    let old_path_value = old_path.value;
    let new_path_value = new_path.value;
    finish(
        id,
        Request::Link {
            old_path: old_path_value,
            new_path: new_path_value,
        },
        new_path.next,
    )
}

// rename: old_path S, new_path S, flags u8. Refuses 4, 5.
fn read_rename(m: &[u8], c: Cursor, id: u32) -> RequestAnswer
    ensures { answer_of result ≡ answer_at m.now c id (request_number Rename) }
{
    let old_path = field_reader::string_at(m, c);
    let new_path = field_reader::string_at(m, old_path.next);
    let flags = field_reader::u8_at(m, new_path.next);
    let old_path_value = old_path.value;
    let new_path_value = new_path.value;
    finish(
        id,
        Request::Rename {
            old_path: old_path_value,
            new_path: new_path_value,
            flags: flags.value,
        },
        flags.next,
    )
}

// chmod: path S, mode u32. Refuses 4, 5.
fn read_chmod(m: &[u8], c: Cursor, id: u32) -> RequestAnswer
    ensures { answer_of result ≡ answer_at m.now c id (request_number Chmod) }
{
    let path = field_reader::string_at(m, c);
    let mode = field_reader::u32_at(m, path.next);
    let path_value = path.value;
    finish(
        id,
        Request::Chmod {
            path: path_value,
            mode: mode.value,
        },
        mode.next,
    )
}

// chown: path S, uid u32, gid u32. Refuses 4, 5.
fn read_chown(m: &[u8], c: Cursor, id: u32) -> RequestAnswer
    ensures { answer_of result ≡ answer_at m.now c id (request_number Chown) }
{
    let path = field_reader::string_at(m, c);
    let uid = field_reader::u32_at(m, path.next);
    let gid = field_reader::u32_at(m, uid.next);
    let path_value = path.value;
    finish(
        id,
        Request::Chown {
            path: path_value,
            uid: uid.value,
            gid: gid.value,
        },
        gid.next,
    )
}

// truncate: path S, size u64, handle u64. Refuses 4, 5.
fn read_truncate(m: &[u8], c: Cursor, id: u32) -> RequestAnswer
    ensures { answer_of result ≡ answer_at m.now c id (request_number Truncate) }
{
    let path = field_reader::string_at(m, c);
    let size = field_reader::u64_at(m, path.next);
    let handle = field_reader::u64_at(m, size.next);
    let path_value = path.value;
    finish(
        id,
        Request::Truncate {
            path: path_value,
            size: size.value,
            handle: handle.value,
        },
        handle.next,
    )
}

// fsync: path S, is_datasync bool, handle u64. Refuses 4, 5.
fn read_fsync(m: &[u8], c: Cursor, id: u32) -> RequestAnswer
    ensures { answer_of result ≡ answer_at m.now c id (request_number Fsync) }
{
    let path = field_reader::string_at(m, c);
    let is_datasync = field_reader::bool_at(m, path.next);
    let handle = field_reader::u64_at(m, is_datasync.next);
    let path_value = path.value;
    finish(
        id,
        Request::Fsync {
            path: path_value,
            is_datasync: is_datasync.value,
            handle: handle.value,
        },
        handle.next,
    )
}

// open: path S, flags i32. Refuses 4, 5.
fn read_open(m: &[u8], c: Cursor, id: u32) -> RequestAnswer
    ensures { answer_of result ≡ answer_at m.now c id (request_number Open) }
{
    let path = field_reader::string_at(m, c);
    let flags = field_reader::i32_at(m, path.next);
    let path_value = path.value;
    finish(
        id,
        Request::Open {
            path: path_value,
            flags: flags.value,
        },
        flags.next,
    )
}

// mknod: path S, mode u32, dev u64. Refuses 4, 5.
fn read_mknod(m: &[u8], c: Cursor, id: u32) -> RequestAnswer
    ensures { answer_of result ≡ answer_at m.now c id (request_number Mknod) }
{
    let path = field_reader::string_at(m, c);
    let mode = field_reader::u32_at(m, path.next);
    let dev = field_reader::u64_at(m, mode.next);
    let path_value = path.value;
    finish(
        id,
        Request::Mknod {
            path: path_value,
            mode: mode.value,
            dev: dev.value,
        },
        dev.next,
    )
}

// create: path S, mode u32. Refuses 4, 5.
fn read_create(m: &[u8], c: Cursor, id: u32) -> RequestAnswer
    ensures { answer_of result ≡ answer_at m.now c id (request_number Create) }
{
    let path = field_reader::string_at(m, c);
    let mode = field_reader::u32_at(m, path.next);
    let path_value = path.value;
    finish(
        id,
        Request::Create {
            path: path_value,
            mode: mode.value,
        },
        mode.next,
    )
}

// release: path S, handle u64. Refuses 4, 5.
fn read_release(m: &[u8], c: Cursor, id: u32) -> RequestAnswer
    ensures { answer_of result ≡ answer_at m.now c id (request_number Release) }
{
    let path = field_reader::string_at(m, c);
    let handle = field_reader::u64_at(m, path.next);
    let path_value = path.value;
    finish(
        id,
        Request::Release {
            path: path_value,
            handle: handle.value,
        },
        handle.next,
    )
}

// unlink: path S. Refuses 4, 5.
fn read_unlink(m: &[u8], c: Cursor, id: u32) -> RequestAnswer
    ensures { answer_of result ≡ answer_at m.now c id (request_number Unlink) }
{
    let path = field_reader::string_at(m, c);
    let path_value = path.value;
    finish(id, Request::Unlink { path: path_value }, path.next)
}

// read: path S, buffer_size u32, offset u64, handle u64. Refuses 4, 5.
fn read_read(m: &[u8], c: Cursor, id: u32) -> RequestAnswer
    ensures { answer_of result ≡ answer_at m.now c id (request_number Read) }
{
    let path = field_reader::string_at(m, c);
    let buffer_size = field_reader::u32_at(m, path.next);
    let offset = field_reader::u64_at(m, buffer_size.next);
    let handle = field_reader::u64_at(m, offset.next);
    let path_value = path.value;
    finish(
        id,
        Request::Read {
            path: path_value,
            buffer_size: buffer_size.value,
            offset: offset.value,
            handle: handle.value,
        },
        handle.next,
    )
}

// write: path S, data bytes, offset u64, handle u64. Refuses 4, 5.
fn read_write(m: &[u8], c: Cursor, id: u32) -> RequestAnswer
    ensures { answer_of result ≡ answer_at m.now c id (request_number Write) }
{
    let path = field_reader::string_at(m, c);
    let data = field_reader::bytes_at(m, path.next);
    let offset = field_reader::u64_at(m, data.next);
    let handle = field_reader::u64_at(m, offset.next);
    let path_value = path.value;
    let data_value = data.value;
    finish(
        id,
        Request::Write {
            path: path_value,
            data: data_value,
            offset: offset.value,
            handle: handle.value,
        },
        handle.next,
    )
}

// mkdir: path S, mode u32. Refuses 4, 5.
fn read_mkdir(m: &[u8], c: Cursor, id: u32) -> RequestAnswer
    ensures { answer_of result ≡ answer_at m.now c id (request_number Mkdir) }
{
    let path = field_reader::string_at(m, c);
    let mode = field_reader::u32_at(m, path.next);
    let path_value = path.value;
    finish(
        id,
        Request::Mkdir {
            path: path_value,
            mode: mode.value,
        },
        mode.next,
    )
}

// readdir: path S. Refuses 4, 5.
fn read_readdir(m: &[u8], c: Cursor, id: u32) -> RequestAnswer
    ensures { answer_of result ≡ answer_at m.now c id (request_number Readdir) }
{
    let path = field_reader::string_at(m, c);
    let path_value = path.value;
    finish(id, Request::Readdir { path: path_value }, path.next)
}

// rmdir: path S. Refuses 4, 5.
fn read_rmdir(m: &[u8], c: Cursor, id: u32) -> RequestAnswer
    ensures { answer_of result ≡ answer_at m.now c id (request_number Rmdir) }
{
    let path = field_reader::string_at(m, c);
    let path_value = path.value;
    finish(id, Request::Rmdir { path: path_value }, path.next)
}

// statfs: path S. Refuses 4, 5.
fn read_statfs(m: &[u8], c: Cursor, id: u32) -> RequestAnswer
    ensures { answer_of result ≡ answer_at m.now c id (request_number Statfs) }
{
    let path = field_reader::string_at(m, c);
    let path_value = path.value;
    finish(id, Request::Statfs { path: path_value }, path.next)
}

// utimens: path S, atime, mtime, handle u64. Refuses 4, 5.
fn read_utimens(m: &[u8], c: Cursor, id: u32) -> RequestAnswer
    ensures { answer_of result ≡ answer_at m.now c id (request_number Utimens) }
{
    let path = field_reader::string_at(m, c);
    let atime = field_reader::timestamp_at(m, path.next);
    let mtime = field_reader::timestamp_at(m, atime.next);
    let handle = field_reader::u64_at(m, mtime.next);
    let path_value = path.value;
    let atime_value = atime.value;
    let mtime_value = mtime.value;
    finish(
        id,
        Request::Utimens {
            path: path_value,
            atime: atime_value,
            mtime: mtime_value,
            handle: handle.value,
        },
        handle.next,
    )
}

// getcreds: no fields.
fn read_getcreds(m: &[u8], c: Cursor, id: u32) -> RequestAnswer
    ensures { answer_of result ≡ answer_at m.now c id (request_number Getcreds) }
{
    finish(id, Request::Getcreds, c)
}
