// For a host: the listing of a request.
#![tactic(auto)]

ghost use Rattle.std.specs.Prelude.{◌≡◌};
ghost use Rattle.request_listing.specs.Listing.{listed};
ghost use Rattle.exports.specs.Shown.{written_of};

use exports::TushaletsWritten;

// The listing of a request, also of one that is refused. 256 bytes are room for every listing.
pub fn tushalets_list_request(message: &[u8], out: &mut [u8]) -> TushaletsWritten
    ensures value { result ≡ written_of (listed message.now out.old).told }
    ensures out_after { out.new ≡ (listed message.now out.old).buffer }
{
    let written = request_listing::list_request(message, out);
    TushaletsWritten::of(written)
}
