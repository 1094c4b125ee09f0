// For a host: requests written. The fields of a type are given by numbers, in the order of the page and each in the low bits of its
// word, and by slices for texts and data. Numbers behind the last field, and slices that the type does not have, are not looked at.
#![tactic(auto)]

ghost use Rattle.std.specs.Prelude.{◌≡◌, [], true};
ghost use Rattle.layout.specs.Table.{request};
ghost use Rattle.layout.specs.Reading.{unknown};
ghost use Rattle.layout.specs.Writing.{write};
ghost use Rattle.message_writer.specs.Writers.{Writes};
ghost use Rattle.exports.specs.Given.{request_lent};
ghost use Rattle.exports.specs.Shown.{written_of};

use exports::TushaletsWritten;
use exports_values::*;
use message_writer::Written;
use method::Method;

// A known request. `first` and `second` are its texts or data, in the order of the table: of a write request the path and the data.
pub fn tushalets_write_request(
    id: u32,
    type_number: u8,
    numbers: &[u64; 5],
    first: &[u8],
    second: &[u8],
    out: &mut [u8],
) -> TushaletsWritten
    ensures value { result ≡ written_of (request_lent id type_number numbers.entry first.entry second.entry out.old).told }
    ensures out_after { out.new ≡ (request_lent id type_number numbers.entry first.entry second.entry out.old).buffer }
{
    let written = write_request(id, type_number, numbers, first, second, out);
    TushaletsWritten::of(written)
}

// An unknown request: five bytes.
pub fn tushalets_write_unknown_request(id: u32, type_number: u8, out: &mut [u8]) -> TushaletsWritten
    ensures value { result ≡ written_of (write request unknown id type_number [] true out.old).told }
    ensures out_after { out.new ≡ (write request unknown id type_number [] true out.old).buffer }
{
    let written = request_writer::write_unknown(id, type_number, out);
    TushaletsWritten::of(written)
}

// The writer of each type.
fn write_request(
    id: u32,
    type_number: u8,
    numbers: &[u64; 5],
    first: &[u8],
    second: &[u8],
    out: &mut [u8],
) -> Written
    ensures { Writes (request_lent id type_number numbers.entry first.entry second.entry) out.entry out.exit result }
{
    match type_number {
        Method::ACCESS => request_writer::write_access(id, first, low_i8(numbers[0]), out),
        Method::GETATTR => request_writer::write_getattr(id, first, out),
        Method::READLINK => request_writer::write_readlink(id, first, out),
        Method::SYMLINK => request_writer::write_symlink(id, first, second, out),
        Method::LINK => request_writer::write_link(id, first, second, out),
        Method::RENAME => request_writer::write_rename(id, first, second, low_u8(numbers[0]), out),
        Method::CHMOD => request_writer::write_chmod(id, first, low_u32(numbers[0]), out),
        Method::CHOWN => {
            request_writer::write_chown(id, first, low_u32(numbers[0]), low_u32(numbers[1]), out)
        }
        Method::TRUNCATE => request_writer::write_truncate(id, first, numbers[0], numbers[1], out),
        Method::FSYNC => {
            request_writer::write_fsync(id, first, is_set(numbers[0]), numbers[1], out)
        }
        Method::OPEN => request_writer::write_open(id, first, low_i32(numbers[0]), out),
        Method::MKNOD => {
            request_writer::write_mknod(id, first, low_u32(numbers[0]), numbers[1], out)
        }
        Method::CREATE => request_writer::write_create(id, first, low_u32(numbers[0]), out),
        Method::RELEASE => request_writer::write_release(id, first, numbers[0], out),
        Method::UNLINK => request_writer::write_unlink(id, first, out),
        Method::READ => {
            request_writer::write_read(id, first, low_u32(numbers[0]), numbers[1], numbers[2], out)
        }
        Method::WRITE => {
            request_writer::write_write(id, first, second, numbers[0], numbers[1], out)
        }
        Method::MKDIR => request_writer::write_mkdir(id, first, low_u32(numbers[0]), out),
        Method::READDIR => request_writer::write_readdir(id, first, out),
        Method::RMDIR => request_writer::write_rmdir(id, first, out),
        Method::STATFS => request_writer::write_statfs(id, first, out),
        Method::UTIMENS => {
            let atime = timestamp(numbers[0], numbers[1]);
            let mtime = timestamp(numbers[2], numbers[3]);
            request_writer::write_utimens(id, first, atime, mtime, numbers[4], out)
        }
        Method::GETCREDS => request_writer::write_getcreds(id, out),
        _ => unexpected(),
    }
}
