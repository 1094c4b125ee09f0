// Reads one request from the standard input and prints its listing (document 01: the request lister).
#![tactic(auto)]

use message_writer::Written;
use request_listing::LONGEST_LISTING;
use wire::{LONGEST_MESSAGE, Run};

// The descriptors of the standard input and of the standard output.
const STDIN: i32 = 0;

const STDOUT: i32 = 1;

// One byte more than the longest message is enough to know that a message is oversize, also of an endless input.
const MESSAGE_ROOM: usize = LONGEST_MESSAGE + 1;

fn main() {
    let mut message = [0u8; MESSAGE_ROOM];
    let len = io::read_full(STDIN, &mut message);
    let mut text = [0u8; LONGEST_LISTING];
    let written = request_listing::list_request(
        wire::bytes_of(&message, Run { start: 0, len }),
        &mut text,
    );
    if let Written::Stored { len } = written {
        io::write_all(STDOUT, wire::bytes_of(&text, Run { start: 0, len }));
    }
}
