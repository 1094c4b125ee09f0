// For a host: requests written. The fields of a type are given by numbers, in the order of the page and each in the low bits of its
// word, and by slices for texts and data. Numbers behind the last field, and slices that the type does not have, are not looked at.
ghost use Rattle.std.specs.Prelude.{◌≡◌, [], true};
ghost use Rattle.layout.specs.Table.{request};
ghost use Rattle.layout.specs.Reading.{unknown};
ghost use Rattle.layout.specs.Writing.{write};
ghost use Rattle.exports.specs.Given.{request_lent};
ghost use Rattle.exports.specs.Shown.{written_of};

use exports::TushaletsWritten;

// A known request. `first` and `second` are its texts or data, in the order of the table: of a write request the path and the data.
#[unsafe(no_mangle)]
pub extern "C" fn tushalets_write_request(
    id: u32,
    type_number: u8,
    numbers: &[u64; 5],
    first: &[u8],
    second: &[u8],
    out: &mut [u8],
) -> TushaletsWritten
    ensures value { result ≡ written_of (request_lent id type_number numbers.entry first.entry second.entry out.old).told }
    ensures out_after { out.new ≡ (request_lent id type_number numbers.entry first.entry second.entry out.old).buffer }
{
    exports_requests::tushalets_write_request(id, type_number, numbers, first, second, out)
}

// An unknown request: five bytes.
#[unsafe(no_mangle)]
pub extern "C" fn tushalets_write_unknown_request(
    id: u32,
    type_number: u8,
    out: &mut [u8],
) -> TushaletsWritten
    ensures value { result ≡ written_of (write request unknown id type_number [] true out.old).told }
    ensures out_after { out.new ≡ (write request unknown id type_number [] true out.old).buffer }
{
    exports_requests::tushalets_write_unknown_request(id, type_number, out)
}
