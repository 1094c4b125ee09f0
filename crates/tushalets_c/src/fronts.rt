// For a host: the provider's front.
ghost use Rattle.std.specs.Prelude.{◌≡◌};
ghost use Rattle.layout.specs.Front.{front as layout_front};
ghost use Rattle.exports.specs.Shown.{fronted_of};

use exports::TushaletsFronted;

// Answers a request that needs no file system, or hands it on. `out` changes only where an answer is stored.
#[unsafe(no_mangle)]
pub extern "C" fn tushalets_front(message: &[u8], out: &mut [u8]) -> TushaletsFronted
    ensures value { result ≡ fronted_of (layout_front message.now out.old).act }
    ensures out_after { out.new ≡ (layout_front message.now out.old).buffer }
{
    exports_front::tushalets_front(message, out)
}
