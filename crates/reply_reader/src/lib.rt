// The reply reader: the header, the result, then the fields of the method, and one answer.
#![tactic(auto)]

ghost use Rattle.std.specs.Prelude.{◌≡◌, ◌+◌, ◌<◌, pos};
ghost use Rattle.method.specs.declared.Method.TheVariants.{Getattr, Readlink, Open, Create, Read, Readdir, Statfs, Getcreds};
ghost use Rattle.method.specs.Methods.{reply_number};
ghost use Rattle.layout.specs.Kinds.{width, u32};
ghost use Rattle.layout.specs.Limits.{header_size};
ghost use Rattle.layout.specs.Names.{first_name};
ghost use Rattle.layout.specs.Table.{reply as reply_side, HasResult};
ghost use Rattle.layout.specs.Reading.{read, behind_header};
ghost use Rattle.reply_reader.specs.Answers.{answer_of, answer_at, success_at, Finished, Compared};

use method::Method;
use wire::{Attributes, Cursor, Header, RESULT_PLACE, Refusal, Run, Statistics};

// A successful reply of each method that has a result, the fields behind it by the row of document 01's table. Text and data are runs: parts of the
// message. The names of a readdir reply are in the message (crate `names`); here is how many they are.
#[derive(Clone, Copy)]
pub enum Reply {
    // access: result alone.
    Access,
    // getattr: attributes.
    Getattr { attributes: Attributes },
    // readlink: resolved S.
    Readlink { resolved: Run },
    // symlink: result alone.
    Symlink,
    // link: result alone.
    Link,
    // rename: result alone.
    Rename,
    // chmod: result alone.
    Chmod,
    // chown: result alone.
    Chown,
    // truncate: result alone.
    Truncate,
    // fsync: result alone.
    Fsync,
    // open: handle u64.
    Open { handle: u64 },
    // mknod: result alone.
    Mknod,
    // create: handle u64.
    Create { handle: u64 },
    // release: result alone.
    Release,
    // unlink: result alone.
    Unlink,
    // read: data bytes.
    Read { data: Run },
    // write: result alone.
    Write,
    // mkdir: result alone.
    Mkdir,
    // readdir: items strings.
    Readdir { count: u32 },
    // rmdir: result alone.
    Rmdir,
    // statfs: statistics.
    Statfs { statistics: Statistics },
    // utimens: result alone.
    Utimens,
}

// What reading a reply comes to. `known` is the length of the known part.
#[derive(Clone, Copy)]
pub enum ReplyAnswer {
    // A result that is not negative, and the fields behind it.
    Success {
        id: u32,
        result: i32,
        reply: Reply,
        known: usize,
    },
    // A negative result, which ends the known part.
    Failure {
        id: u32,
        type_number: u8,
        result: i32,
        known: usize,
    },
    // The getcreds reply, which has no result.
    Credentials {
        id: u32,
        creds: Run,
        known: usize,
    },
    // The unknown response, the answer to a request of no method.
    UnknownResponse {
        id: u32,
        known: usize,
    },
    // Document 01's number of refusal, and its place.
    Refused {
        number: u8,
        place: usize,
    },
}

// The answer to a message. No message needs a check beforehand. Refuses 1, 2, 3, then 4 and 5 field by field, and 6 when the data of a read reply
// is whole.
pub fn read_reply(m: &[u8]) -> ReplyAnswer
    ensures { answer_of m.now result ≡ read reply_side m.now }
{
    let header = field_reader::read_header(m);
    let next = header.next;
    let code = next.code;
    let at = next.at;
    if code != Refusal::NONE {
        return ReplyAnswer::Refused {
            number: code,
            place: at,
        };
    }
    read_body(m, header.value.id, header.value.type_number)
}

// The answer to a message of this id and type. The methods with a result are numbered one after another.
fn read_body(m: &[u8], id: u32, type_number: u8) -> ReplyAnswer
    ensures { answer_of m.now result ≡ behind_header reply_side id type_number m.now }
{
    let c = Cursor::BEHIND_HEADER;
    if type_number == Method::UNKNOWN_RESPONSE {
        return ReplyAnswer::UnknownResponse {
            id,
            known: Header::SIZE,
        };
    }
    if type_number == Method::GETCREDS_REPLY {
        return read_getcreds(m, c, id);
    }
    if type_number < Method::ACCESS_REPLY {
        return ReplyAnswer::Refused {
            number: Refusal::UNEXPECTED_TYPE,
            place: Header::TYPE_PLACE,
        };
    }
    if Method::UTIMENS_REPLY < type_number {
        return ReplyAnswer::Refused {
            number: Refusal::UNEXPECTED_TYPE,
            place: Header::TYPE_PLACE,
        };
    }
    read_result(m, c, id, type_number)
}

// getcreds: creds S, no result before it. Refuses 4, 5.
fn read_getcreds(m: &[u8], c: Cursor, id: u32) -> ReplyAnswer
    ensures { answer_of m.now result ≡ answer_at m.now c id (reply_number Getcreds) }
{
    let creds = field_reader::string_at(m, c);
    let run = creds.value;
    let next = creds.next;
    let code = next.code;
    let at = next.at;
    if code != Refusal::NONE {
        return ReplyAnswer::Refused {
            number: code,
            place: at,
        };
    }
    ReplyAnswer::Credentials {
        id,
        creds: run,
        known: at,
    }
}

// The result, and where it is not negative the fields.
// Asks for a type that has a result: `read_body` has answered every other. `c` is behind the header.
fn read_result(m: &[u8], c: Cursor, id: u32, type_number: u8) -> ReplyAnswer
    requires { HasResult type_number × (c.at ≡ header_size) }
    ensures { answer_of m.now result ≡ answer_at m.now c id type_number }
{
    let result = field_reader::i32_at(m, c);
    let value = result.value;
    let next = result.next;
    let code = next.code;
    let at = next.at;
    if code != Refusal::NONE {
        return ReplyAnswer::Refused {
            number: code,
            place: at,
        };
    }
    if value < 0 {
        return ReplyAnswer::Failure {
            id,
            type_number,
            result: value,
            known: at,
        };
    }
    read_success(m, next, id, type_number, value as u32)
}

// The fields behind a result that is not negative.
// Asks for a type that has a result, and for one that is not negative: `read_result` has answered every other. `c` is behind the result.
fn read_success(m: &[u8], c: Cursor, id: u32, type_number: u8, res: u32) -> ReplyAnswer
    requires { HasResult type_number × (res < 0x8000_0000) × (c.at + width u32 ≡ first_name) }
    ensures { answer_of m.now result ≡ success_at m.now c id type_number (pos res) }
{
    match type_number {
        Method::ACCESS_REPLY => finish(m, id, res, Reply::Access, c),
        Method::GETATTR_REPLY => read_getattr(m, c, id, res),
        Method::READLINK_REPLY => read_readlink(m, c, id, res),
        Method::SYMLINK_REPLY => finish(m, id, res, Reply::Symlink, c),
        Method::LINK_REPLY => finish(m, id, res, Reply::Link, c),
        Method::RENAME_REPLY => finish(m, id, res, Reply::Rename, c),
        Method::CHMOD_REPLY => finish(m, id, res, Reply::Chmod, c),
        Method::CHOWN_REPLY => finish(m, id, res, Reply::Chown, c),
        Method::TRUNCATE_REPLY => finish(m, id, res, Reply::Truncate, c),
        Method::FSYNC_REPLY => finish(m, id, res, Reply::Fsync, c),
        Method::OPEN_REPLY => read_open(m, c, id, res),
        Method::MKNOD_REPLY => finish(m, id, res, Reply::Mknod, c),
        Method::CREATE_REPLY => read_create(m, c, id, res),
        Method::RELEASE_REPLY => finish(m, id, res, Reply::Release, c),
        Method::UNLINK_REPLY => finish(m, id, res, Reply::Unlink, c),
        Method::READ_REPLY => read_read(m, c, id, res),
        Method::WRITE_REPLY => finish(m, id, res, Reply::Write, c),
        Method::MKDIR_REPLY => finish(m, id, res, Reply::Mkdir, c),
        Method::READDIR_REPLY => read_readdir(m, c, id, res),
        Method::RMDIR_REPLY => finish(m, id, res, Reply::Rmdir, c),
        Method::STATFS_REPLY => read_statfs(m, c, id, res),
        Method::UTIMENS_REPLY => finish(m, id, res, Reply::Utimens, c),
        _ => ReplyAnswer::Refused {
            number: Refusal::UNEXPECTED_TYPE,
            place: Header::TYPE_PLACE,
        },
    }
}

// The answer by the cursor behind the last field.
// Asks for a result that is not negative, as each of its callers does.
fn finish(m: &[u8], id: u32, res: u32, reply: Reply, c: Cursor) -> ReplyAnswer
    requires { res < 0x8000_0000 }
    ensures { Finished m.now id res reply c (answer_of m.now result) }
{
    let code = c.code;
    let at = c.at;
    if code == Refusal::NONE {
        ReplyAnswer::Success {
            id,
            result: res as i32,
            reply,
            known: at,
        }
    } else {
        ReplyAnswer::Refused {
            number: code,
            place: at,
        }
    }
}

// getattr: attributes. Refuses 4.
// Asks for a result that is not negative, as `read_success` does.
fn read_getattr(m: &[u8], c: Cursor, id: u32, res: u32) -> ReplyAnswer
    requires { res < 0x8000_0000 }
    ensures { answer_of m.now result ≡ success_at m.now c id (reply_number Getattr) (pos res) }
{
    let attributes = field_reader::attributes_at(m, c);
    let value = attributes.value;
    finish(
        m,
        id,
        res,
        Reply::Getattr { attributes: value },
        attributes.next,
    )
}

// readlink: resolved S. Refuses 4, 5.
// Asks for a result that is not negative, as `read_success` does.
fn read_readlink(m: &[u8], c: Cursor, id: u32, res: u32) -> ReplyAnswer
    requires { res < 0x8000_0000 }
    ensures { answer_of m.now result ≡ success_at m.now c id (reply_number Readlink) (pos res) }
{
    let resolved = field_reader::string_at(m, c);
    let value = resolved.value;
    finish(
        m,
        id,
        res,
        Reply::Readlink { resolved: value },
        resolved.next,
    )
}

// open: handle u64. Refuses 4.
// Asks for a result that is not negative, as `read_success` does.
fn read_open(m: &[u8], c: Cursor, id: u32, res: u32) -> ReplyAnswer
    requires { res < 0x8000_0000 }
    ensures { answer_of m.now result ≡ success_at m.now c id (reply_number Open) (pos res) }
{
    let handle = field_reader::u64_at(m, c);
    finish(
        m,
        id,
        res,
        Reply::Open {
            handle: handle.value,
        },
        handle.next,
    )
}

// create: handle u64. Refuses 4.
// Asks for a result that is not negative, as `read_success` does.
fn read_create(m: &[u8], c: Cursor, id: u32, res: u32) -> ReplyAnswer
    requires { res < 0x8000_0000 }
    ensures { answer_of m.now result ≡ success_at m.now c id (reply_number Create) (pos res) }
{
    let handle = field_reader::u64_at(m, c);
    finish(
        m,
        id,
        res,
        Reply::Create {
            handle: handle.value,
        },
        handle.next,
    )
}

// read: data bytes. Refuses 4, 6.
// Asks for a result that is not negative, as `read_success` does.
fn read_read(m: &[u8], c: Cursor, id: u32, res: u32) -> ReplyAnswer
    requires { res < 0x8000_0000 }
    ensures { answer_of m.now result ≡ success_at m.now c id (reply_number Read) (pos res) }
{
    let data = field_reader::bytes_at(m, c);
    let run = data.value;
    let next = compared(data.next, run.len, res);
    finish(m, id, res, Reply::Read { data: run }, next)
}

// readdir: items strings. Refuses 4, 5.
// Asks for a result that is not negative, and for the place of the count, as `read_success` does.
fn read_readdir(m: &[u8], c: Cursor, id: u32, res: u32) -> ReplyAnswer
    requires { (res < 0x8000_0000) × (c.at + width u32 ≡ first_name) }
    ensures { answer_of m.now result ≡ success_at m.now c id (reply_number Readdir) (pos res) }
{
    let count = field_reader::names_at(m, c);
    finish(
        m,
        id,
        res,
        Reply::Readdir { count: count.value },
        count.next,
    )
}

// statfs: statistics. Refuses 4.
// Asks for a result that is not negative, as `read_success` does.
fn read_statfs(m: &[u8], c: Cursor, id: u32, res: u32) -> ReplyAnswer
    requires { res < 0x8000_0000 }
    ensures { answer_of m.now result ≡ success_at m.now c id (reply_number Statfs) (pos res) }
{
    let statistics = field_reader::statistics_at(m, c);
    let value = statistics.value;
    finish(
        m,
        id,
        res,
        Reply::Statfs { statistics: value },
        statistics.next,
    )
}

// The result of a read reply is compared with the length of its data, once the data is whole.
fn compared(c: Cursor, len: usize, res: u32) -> Cursor
    ensures { Compared c len res result }
{
    let code = c.code;
    if code != Refusal::NONE {
        return c;
    }
    if len == res as usize {
        return c;
    }
    Cursor {
        code: Refusal::DATA_LENGTH_MISMATCH,
        at: RESULT_PLACE,
    }
}
