// Well-formed text: UTF-8, by the eight entries of document 01's list (RFC 3629, section 4).
#![tactic(auto)]

ghost use Rattle.std.specs.Prelude.{◌≡◌, [], ◌∷◌, ◌<◌, length, drop};
ghost use Rattle.text.specs.Utf8.{◌to◌, begins, character, well_formed_end};

// Where the longest well-formed beginning of `s` ends. `s` is well-formed exactly when that is its length.
pub fn well_formed_end(s: &[u8]) -> usize
    ensures { result ≡ well_formed_end s.now }
{
    let mut at = 0;
    while at < s.len() {
        let size = character_at(s, at);
        if size == 0 {
            return at;
        }
        at += size;
    }
    at
}

// The size of the character at `at`, 0 where none begins there. Each decision is one entry of the list, in its order: the range of the
// first byte, the range of each byte behind it, and how many bytes that is. (In RFC 3629, ee..ef is a line of its own.)
// Asks that `at` lies inside `s`: `well_formed_end` has tested it.
fn character_at(s: &[u8], at: usize) -> usize
    requires { at < length s.now }
    ensures { result ≡ character (drop at s.now) }
{
    if within(s, at, 0x00, 0x7f) {
        return 1;
    }
    if within(s, at, 0xc2, 0xdf) && within(s, at + 1, 0x80, 0xbf) {
        return 2;
    }
    if within(s, at, 0xe0, 0xe0) && within(s, at + 1, 0xa0, 0xbf) && within(s, at + 2, 0x80, 0xbf) {
        return 3;
    }
    if (within(s, at, 0xe1, 0xec) || within(s, at, 0xee, 0xef))
        && within(s, at + 1, 0x80, 0xbf)
        && within(s, at + 2, 0x80, 0xbf)
    {
        return 3;
    }
    if within(s, at, 0xed, 0xed) && within(s, at + 1, 0x80, 0x9f) && within(s, at + 2, 0x80, 0xbf) {
        return 3;
    }
    if within(s, at, 0xf0, 0xf0)
        && within(s, at + 1, 0x90, 0xbf)
        && within(s, at + 2, 0x80, 0xbf)
        && within(s, at + 3, 0x80, 0xbf)
    {
        return 4;
    }
    if within(s, at, 0xf1, 0xf3)
        && within(s, at + 1, 0x80, 0xbf)
        && within(s, at + 2, 0x80, 0xbf)
        && within(s, at + 3, 0x80, 0xbf)
    {
        return 4;
    }
    if within(s, at, 0xf4, 0xf4)
        && within(s, at + 1, 0x80, 0x8f)
        && within(s, at + 2, 0x80, 0xbf)
        && within(s, at + 3, 0x80, 0xbf)
    {
        return 4;
    }
    0
}

// Whether there is a byte at `at`, and it is one of lo..hi.
fn within(s: &[u8], at: usize, lo: u8, hi: u8) -> bool
    ensures { result ≡ begins (lo to hi ∷ []) (drop at s.now) }
{
    at < s.len() && lo <= s[at] && s[at] <= hi
}
