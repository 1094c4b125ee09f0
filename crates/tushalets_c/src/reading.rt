// For a host: requests and replies read, and the names of a readdir reply taken one after another.
ghost use Rattle.std.specs.Prelude.{◌≡◌};
ghost use Rattle.layout.specs.Table.{request as request_side, reply as reply_side};
ghost use Rattle.layout.specs.Reading.{read};
ghost use Rattle.layout.specs.Names.{position, step as step_at};
ghost use Rattle.exports.specs.Shown.{reading_of, name_of};

use exports::{TushaletsName, TushaletsReading};

// A request read. No message needs a check beforehand.
#[unsafe(no_mangle)]
pub extern "C" fn tushalets_read_request(message: &[u8]) -> TushaletsReading
    ensures { result ≡ reading_of (read request_side message.now) }
{
    exports_reading::tushalets_read_request(message)
}

// A reply read.
#[unsafe(no_mangle)]
pub extern "C" fn tushalets_read_reply(message: &[u8]) -> TushaletsReading
    ensures { result ≡ reading_of (read reply_side message.now) }
{
    exports_reading::tushalets_read_reply(message)
}

// The name at a position of a readdir reply. The first position is the pair of cells that the reading shows, the others are in the
// steps. A position that was made up is harmless, but its name may be no text.
#[unsafe(no_mangle)]
pub extern "C" fn tushalets_next_name(message: &[u8], at: usize, left: u32) -> TushaletsName
    ensures { result ≡ name_of (step_at message.now (position at left)) }
{
    exports_reading::tushalets_next_name(message, at, left)
}
