// For a host: the provider's front.
#![tactic(auto)]

ghost use Rattle.std.specs.Prelude.{◌≡◌};
ghost use Rattle.layout.specs.Front.{front as layout_front};
ghost use Rattle.front.specs.Acts.{act_of};
ghost use Rattle.exports.specs.Shown.{fronted_of};

use exports::TushaletsFronted;
use front::Fronted;

// Answers a request that needs no file system, or hands it on. `out` changes only where an answer is stored.
pub fn tushalets_front(message: &[u8], out: &mut [u8]) -> TushaletsFronted
    ensures value { result ≡ fronted_of (layout_front message.now out.old).act }
    ensures out_after { out.new ≡ (layout_front message.now out.old).buffer }
{
    let fronted = front::front(message, out);
    numbers_of(fronted)
}

fn numbers_of(fronted: Fronted) -> TushaletsFronted
    ensures { result ≡ fronted_of (act_of fronted) }
{
    match fronted {
        Fronted::HandedOn => TushaletsFronted {
            act: 0,
            number: 0,
            len: 0,
            place: 0,
        },
        Fronted::Stored { len } => TushaletsFronted {
            act: 1,
            number: 0,
            len,
            place: 0,
        },
        Fronted::Refused { number, place } => TushaletsFronted {
            act: 2,
            number: number as u32,
            len: 0,
            place,
        },
    }
}
