// For a host: the version of the exports, and the text check by itself.
ghost use Rattle.std.specs.Prelude.{◌≡◌};
ghost use Rattle.text.specs.Utf8.{well_formed_end};
ghost use Rattle.exports.specs.Shown.{version};

// The version that a host was written for is this one, or the two do not fit.
#[unsafe(no_mangle)]
pub extern "C" fn tushalets_version() -> u32
    ensures { result ≡ version }
{
    exports_text::tushalets_version()
}

// Where the longest well-formed beginning of `text` ends. `text` is well-formed exactly when that is its length.
#[unsafe(no_mangle)]
pub extern "C" fn tushalets_well_formed_end(text: &[u8]) -> usize
    ensures { result ≡ well_formed_end text.now }
{
    exports_text::tushalets_well_formed_end(text)
}
