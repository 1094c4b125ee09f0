// For a host: requests and replies read, and the names of a readdir reply taken one after another.
#![tactic(auto)]

ghost use Rattle.std.specs.Prelude.{◌≡◌, List, [], ◌∷◌, ℕ};
ghost use Rattle.number.specs.TwosComplement.{bits_of};
ghost use Rattle.layout.specs.Table.{request as request_side, reply as reply_side};
ghost use Rattle.layout.specs.Reading.{read, refused as refused_answer};
ghost use Rattle.layout.specs.Names.{position, step as step_at};
ghost use Rattle.layout.specs.Writing.{bit};
ghost use Rattle.wire.specs.Values.{attributes_values, statistics_values};
ghost use Rattle.request_reader.specs.Answers as asked;
ghost use Rattle.reply_reader.specs.Answers as replied;
ghost use Rattle.exports.specs.Shown.{all_cells, padded, cell_count, field_cells, accepting, reading_of, name_of};
ghost use Rattle.exports_reading.specs.Typed.{typed};

use exports::{TushaletsName, TushaletsReading};
use names::{Position, Step};
use reply_reader::{Reply, ReplyAnswer};
use request_reader::{Request, RequestAnswer};
use wire::{Attributes, FIRST_NAME, Run, Statistics};

// The numbers of an answer's shapes; 0 is a refusal.
pub const UNKNOWN: u32 = 1;

pub const KNOWN: u32 = 2;

pub const FAILURE: u32 = 3;

pub const SUCCESS: u32 = 4;

// A request read. No message needs a check beforehand.
pub fn tushalets_read_request(message: &[u8]) -> TushaletsReading
    ensures { result ≡ reading_of (read request_side message.now) }
{
    let answer = request_reader::read_request(message);
    let type_number = field_reader::type_of(message);
    request_reading(answer, type_number)
}

// A reply read.
pub fn tushalets_read_reply(message: &[u8]) -> TushaletsReading
    ensures { result ≡ reading_of (read reply_side message.now) }
{
    let answer = reply_reader::read_reply(message);
    let type_number = field_reader::type_of(message);
    reply_reading(answer, type_number)
}

// The name at a position of a readdir reply. The first position is the pair of cells that the reading shows, the others are in the
// steps. A position that was made up is harmless, but its name may be no text.
pub fn tushalets_next_name(message: &[u8], at: usize, left: u32) -> TushaletsName
    ensures { result ≡ name_of (step_at message.now (position at left)) }
{
    let step = names::step_at(message, Position { at, left });
    match step {
        Step::Name { run, next } => TushaletsName {
            found: 1,
            left: next.left,
            start: run.start,
            len: run.len,
            at: next.at,
        },
        Step::End { position } => TushaletsName {
            found: 0,
            left: position.left,
            start: 0,
            len: 0,
            at: position.at,
        },
    }
}

// The reading of a refusal.
pub fn refused(number: u8, place: usize) -> TushaletsReading
    ensures { result ≡ reading_of (refused_answer number place) }
{
    TushaletsReading {
        shape: 0,
        number: number as u32,
        id: 0,
        type_number: 0,
        place,
        known: 0,
        fields: [0; 17],
    }
}

// The reading of an accepted message, with these cells of its fields.
pub fn accepted(
    shape: u32,
    id: u32,
    type_number: u8,
    known: usize,
    fields: [u64; 17],
) -> TushaletsReading
    ensures { result ≡ accepting shape id type_number known fields }
{
    TushaletsReading {
        shape,
        number: 0,
        id,
        type_number: type_number as u32,
        place: 0,
        known,
        fields,
    }
}

// ---- requests

// The reading of a request that was answered so and has this type.
fn request_reading(answer: RequestAnswer, type_number: u8) -> TushaletsReading
    ensures { result ≡ reading_of (typed type_number (asked.answer_of answer)) }
{
    match answer {
        RequestAnswer::Known { id, request, known } => {
            accepted(KNOWN, id, type_number, known, request_cells(request))
        }
        RequestAnswer::Unknown { id, known, .. } => {
            accepted(UNKNOWN, id, type_number, known, [0; 17])
        }
        RequestAnswer::Refused { number, place } => refused(number, place),
    }
}

fn request_cells(request: Request) -> [u64; 17]
    ensures { result ≡ field_cells (asked.values_of request) }
{
    match request {
        Request::Access { path, mode } => one_run(path, signed_cell(widened(mode)), 0, 0, 0, 0),
        Request::Getattr { path } => one_run(path, 0, 0, 0, 0, 0),
        Request::Readlink { path } => one_run(path, 0, 0, 0, 0, 0),
        Request::Symlink { target, linkpath } => two_runs(target, linkpath, 0, 0),
        Request::Link { old_path, new_path } => two_runs(old_path, new_path, 0, 0),
        Request::Rename {
            old_path,
            new_path,
            flags,
        } => two_runs(old_path, new_path, flags as u64, 0),
        Request::Chmod { path, mode } => one_run(path, mode as u64, 0, 0, 0, 0),
        Request::Chown { path, uid, gid } => one_run(path, uid as u64, gid as u64, 0, 0, 0),
        Request::Truncate { path, size, handle } => one_run(path, size, handle, 0, 0, 0),
        Request::Fsync {
            path,
            is_datasync,
            handle,
        } => one_run(path, bool_cell(is_datasync), handle, 0, 0, 0),
        Request::Open { path, flags } => one_run(path, signed_cell(flags), 0, 0, 0, 0),
        Request::Mknod { path, mode, dev } => one_run(path, mode as u64, dev, 0, 0, 0),
        Request::Create { path, mode } => one_run(path, mode as u64, 0, 0, 0, 0),
        Request::Release { path, handle } => one_run(path, handle, 0, 0, 0, 0),
        Request::Unlink { path } => one_run(path, 0, 0, 0, 0, 0),
        Request::Read {
            path,
            buffer_size,
            offset,
            handle,
        } => one_run(path, buffer_size as u64, offset, handle, 0, 0),
        Request::Write {
            path,
            data,
            offset,
            handle,
        } => two_runs(path, data, offset, handle),
        Request::Mkdir { path, mode } => one_run(path, mode as u64, 0, 0, 0, 0),
        Request::Readdir { path } => one_run(path, 0, 0, 0, 0, 0),
        Request::Rmdir { path } => one_run(path, 0, 0, 0, 0, 0),
        Request::Statfs { path } => one_run(path, 0, 0, 0, 0, 0),
        Request::Utimens {
            path,
            atime,
            mtime,
            handle,
        } => one_run(
            path,
            atime.seconds,
            atime.nsec as u64,
            mtime.seconds,
            mtime.nsec as u64,
            handle,
        ),
        Request::Getcreds => [0; 17],
    }
}

// ---- replies

// The reading of a reply that was answered so and has this type.
pub fn reply_reading(answer: ReplyAnswer, type_number: u8) -> TushaletsReading
    ensures { (m : List ℕ) → result ≡ reading_of (typed type_number (replied.answer_of m answer)) }
{
    match answer {
        ReplyAnswer::Success {
            id,
            result,
            reply,
            known,
        } => {
            let cells = success_cells(signed_cell(result), reply);
            accepted(SUCCESS, id, type_number, known, cells)
        }
        ReplyAnswer::Failure {
            id,
            result,
            known,
            ..
        } => {
            let cells = three_cells(signed_cell(result), 0, 0);
            accepted(FAILURE, id, type_number, known, cells)
        }
        ReplyAnswer::Credentials { id, creds, known } => {
            let cells = three_cells(creds.start as u64, creds.len as u64, 0);
            accepted(SUCCESS, id, type_number, known, cells)
        }
        ReplyAnswer::UnknownResponse { id, known } => {
            accepted(UNKNOWN, id, type_number, known, [0; 17])
        }
        ReplyAnswer::Refused { number, place } => refused(number, place),
    }
}

// The cells of a success: that of its result, and those of the fields behind it.
fn success_cells(res: u64, reply: Reply) -> [u64; 17]
    ensures { (m : List ℕ) → result ≡ padded cell_count (res ∷ all_cells (replied.values_of m reply)) }
{
    match reply {
        Reply::Access => three_cells(res, 0, 0),
        Reply::Getattr { attributes } => attributes_cells(res, attributes),
        Reply::Readlink { resolved } => {
            three_cells(res, resolved.start as u64, resolved.len as u64)
        }
        Reply::Symlink => three_cells(res, 0, 0),
        Reply::Link => three_cells(res, 0, 0),
        Reply::Rename => three_cells(res, 0, 0),
        Reply::Chmod => three_cells(res, 0, 0),
        Reply::Chown => three_cells(res, 0, 0),
        Reply::Truncate => three_cells(res, 0, 0),
        Reply::Fsync => three_cells(res, 0, 0),
        Reply::Open { handle } => three_cells(res, handle, 0),
        Reply::Mknod => three_cells(res, 0, 0),
        Reply::Create { handle } => three_cells(res, handle, 0),
        Reply::Release => three_cells(res, 0, 0),
        Reply::Unlink => three_cells(res, 0, 0),
        Reply::Read { data } => three_cells(res, data.start as u64, data.len as u64),
        Reply::Write => three_cells(res, 0, 0),
        Reply::Mkdir => three_cells(res, 0, 0),
        Reply::Readdir { count } => three_cells(res, FIRST_NAME as u64, count as u64),
        Reply::Rmdir => three_cells(res, 0, 0),
        Reply::Statfs { statistics } => statistics_cells(res, statistics),
        Reply::Utimens => three_cells(res, 0, 0),
    }
}

// ---- cells

fn widened(x: i8) -> i32
    ensures { result ≡ x }
{
    x as i32
}

// The bits of a signed number, at 32 bits.
pub fn signed_cell(x: i32) -> u64
    ensures { result ≡ bits_of 4 x }
{
    number::bits_of_i32(x) as u64
}

// 1 for true, 0 for false.
pub fn bool_cell(x: bool) -> u64
    ensures { result ≡ bit x }
{
    if x { 1 } else { 0 }
}

// The cells of a text and five numbers behind it.
fn one_run(x: Run, a: u64, b: u64, c: u64, d: u64, e: u64) -> [u64; 17]
    ensures { result ≡ padded cell_count (x.start ∷ x.len ∷ a ∷ b ∷ c ∷ d ∷ e ∷ []) }
{
    let start = x.start as u64;
    let len = x.len as u64;
    [start, len, a, b, c, d, e, 0, 0, 0, 0, 0, 0, 0, 0, 0, 0]
}

// The cells of two texts, or of a text and data, and two numbers behind them.
fn two_runs(x: Run, y: Run, a: u64, b: u64) -> [u64; 17]
    ensures { result ≡ padded cell_count (x.start ∷ x.len ∷ y.start ∷ y.len ∷ a ∷ b ∷ []) }
{
    one_run(x, y.start as u64, y.len as u64, a, b, 0)
}

fn three_cells(a: u64, b: u64, c: u64) -> [u64; 17]
    ensures { result ≡ padded cell_count (a ∷ b ∷ c ∷ []) }
{
    [a, b, c, 0, 0, 0, 0, 0, 0, 0, 0, 0, 0, 0, 0, 0, 0]
}

fn attributes_cells(res: u64, a: Attributes) -> [u64; 17]
    ensures { result ≡ padded cell_count (res ∷ all_cells (attributes_values a)) }
{
    let atime = a.atime;
    let mtime = a.mtime;
    let ctime = a.ctime;
    [
        res,
        a.inode,
        a.nlink,
        a.mode as u64,
        a.uid as u64,
        a.gid as u64,
        a.rdev,
        a.size,
        a.blocks,
        atime.seconds,
        atime.nsec as u64,
        mtime.seconds,
        mtime.nsec as u64,
        ctime.seconds,
        ctime.nsec as u64,
        0,
        0,
    ]
}

fn statistics_cells(res: u64, s: Statistics) -> [u64; 17]
    ensures { result ≡ padded cell_count (res ∷ all_cells (statistics_values s)) }
{
    [
        res, s.bsize, s.frsize, s.blocks, s.bfree, s.bavail, s.files, s.ffree, s.namemax, 0, 0, 0,
        0, 0, 0, 0, 0,
    ]
}
