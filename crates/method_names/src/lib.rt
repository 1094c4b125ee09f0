// The names of the methods, added at a cursor of a lent buffer.
#![tactic(auto)]

ghost use Rattle.std.specs.Prelude.{◌≡◌};
ghost use Rattle.text.specs.Ascii.{ascii};
ghost use Rattle.field_writer.specs.Stored.{Put};
ghost use Rattle.method_names.specs.Names.{name_of, row_of};

use method::Method;
use wire::Cursor;

// A name, filled up with spaces, and its length.
#[derive(Clone, Copy)]
struct Name([u8; 8], usize);

// In the order of the request numbers, which begin at 1.
const NAMES: [Name; 23] = [
    Name(*b"access  ", 6),
    Name(*b"getattr ", 7),
    Name(*b"readlink", 8),
    Name(*b"symlink ", 7),
    Name(*b"link    ", 4),
    Name(*b"rename  ", 6),
    Name(*b"chmod   ", 5),
    Name(*b"chown   ", 5),
    Name(*b"truncate", 8),
    Name(*b"fsync   ", 5),
    Name(*b"open    ", 4),
    Name(*b"mknod   ", 5),
    Name(*b"create  ", 6),
    Name(*b"release ", 7),
    Name(*b"unlink  ", 6),
    Name(*b"read    ", 4),
    Name(*b"write   ", 5),
    Name(*b"mkdir   ", 5),
    Name(*b"readdir ", 7),
    Name(*b"rmdir   ", 5),
    Name(*b"statfs  ", 6),
    Name(*b"utimens ", 7),
    Name(*b"getcreds", 8),
];

// The name of a method. Refuses 7.
pub fn put_name(out: &mut [u8], c: Cursor, method: Method) -> Cursor
    ensures { Put out.old c (ascii (name_of method)) out.new result }
{
    let name = name_of(method);
    let text = name.0;
    let len = name.1;
    field_writer::put_all(out, c, &text[..len])
}

// The method's row of the table.
fn name_of(method: Method) -> Name
    ensures { result ≡ row_of method }
{
    let number = method.request_number() as usize;
    NAMES[number - 1]
}
