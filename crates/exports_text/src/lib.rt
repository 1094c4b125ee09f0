// For a host: the version of the exports, and the text check by itself.
#![tactic(auto)]

ghost use Rattle.std.specs.Prelude.{◌≡◌};
ghost use Rattle.text.specs.Utf8.{well_formed_end};
ghost use Rattle.exports.specs.Shown.{version};

// The version that a host was written for is this one, or the two do not fit.
pub fn tushalets_version() -> u32
    ensures { result ≡ version }
{
    exports::VERSION
}

// Where the longest well-formed beginning of `text` ends. `text` is well-formed exactly when that is its length.
pub fn tushalets_well_formed_end(text: &[u8]) -> usize
    ensures { result ≡ well_formed_end text.now }
{
    text::well_formed_end(text)
}
