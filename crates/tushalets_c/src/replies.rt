// For a host: replies written. The fields behind the result are given by numbers, in the order of the page and each in the low bits of its
// word, and by slices for text, data and names. Numbers behind the last field, and slices that the type does not have, are not looked at.
ghost use Rattle.std.specs.Prelude.{◌≡◌, [], ◌∷◌, true};
ghost use Rattle.layout.specs.Table.{reply, unknown_response};
ghost use Rattle.layout.specs.Values.{signed};
ghost use Rattle.layout.specs.Reading.{unknown, failure};
ghost use Rattle.layout.specs.Writing.{write};
ghost use Rattle.exports.specs.Given.{success_lent};
ghost use Rattle.exports.specs.Shown.{written_of};

use exports::TushaletsWritten;

// A success. `run` is its text or data. The names of a readdir reply are `run`, one behind the other, and `lengths`; every other
// reply leaves `lengths` aside. A getcreds reply has no result and leaves `res` aside.
#[unsafe(no_mangle)]
pub extern "C" fn tushalets_write_reply(
    id: u32,
    type_number: u8,
    res: i32,
    numbers: &[u64; 14],
    run: &[u8],
    lengths: &[u32],
    out: &mut [u8],
) -> TushaletsWritten
    ensures value { result ≡ written_of (success_lent id type_number res numbers.entry run.entry lengths.entry out.old).told }
    ensures out_after { out.new ≡ (success_lent id type_number res numbers.entry run.entry lengths.entry out.old).buffer }
{
    exports_replies::tushalets_write_reply(id, type_number, res, numbers, run, lengths, out)
}

// A failure: nine bytes.
#[unsafe(no_mangle)]
pub extern "C" fn tushalets_write_failure(
    id: u32,
    type_number: u8,
    code: i32,
    out: &mut [u8],
) -> TushaletsWritten
    ensures value { result ≡ written_of (write reply failure id type_number (signed code ∷ []) true out.old).told }
    ensures out_after { out.new ≡ (write reply failure id type_number (signed code ∷ []) true out.old).buffer }
{
    exports_replies::tushalets_write_failure(id, type_number, code, out)
}

// The unknown response: five bytes.
#[unsafe(no_mangle)]
pub extern "C" fn tushalets_write_unknown_response(id: u32, out: &mut [u8]) -> TushaletsWritten
    ensures value { result ≡ written_of (write reply unknown id unknown_response [] true out.old).told }
    ensures out_after { out.new ≡ (write reply unknown id unknown_response [] true out.old).buffer }
{
    exports_replies::tushalets_write_unknown_response(id, out)
}
