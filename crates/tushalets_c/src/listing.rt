// For a host: the listing of a request.
ghost use Rattle.std.specs.Prelude.{◌≡◌};
ghost use Rattle.request_listing.specs.Listing.{listed};
ghost use Rattle.exports.specs.Shown.{written_of};

use exports::TushaletsWritten;

// The listing of a request, also of one that is refused. 256 bytes are room for every listing.
#[unsafe(no_mangle)]
pub extern "C" fn tushalets_list_request(message: &[u8], out: &mut [u8]) -> TushaletsWritten
    ensures value { result ≡ written_of (listed message.now out.old).told }
    ensures out_after { out.new ≡ (listed message.now out.old).buffer }
{
    exports_listing::tushalets_list_request(message, out)
}
