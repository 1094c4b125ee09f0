// For the writers of a host: the values of fields by words of 64 bits.
#![tactic(auto)]

ghost use Rattle.std.specs.Prelude.{◌≡◌, [], not, ◌%◌, eqb};
ghost use Rattle.number.specs.TwosComplement.{signed_of};
ghost use Rattle.layout.specs.Kinds.{kinds, attributes, statistics};
ghost use Rattle.layout.specs.Refusals.{unexpected_type};
ghost use Rattle.wire.specs.Values.{attributes_values, statistics_values};
ghost use Rattle.message_writer.specs.declared.Written.TheVariants.{Refused};
ghost use Rattle.exports.specs.Given.{given};

use message_writer::Written;
use wire::{Attributes, Refusal, Statistics, Timestamp};

// The number in the low 8 bits of a word.
pub fn low_u8(n: u64) -> u8
    ensures { result ≡ n % 0x100 }
{
    (n % 0x100) as u8
}

// The number in the low 32 bits of a word.
pub fn low_u32(n: u64) -> u32
    ensures { result ≡ n % 0x1_0000_0000 }
{
    (n % 0x1_0000_0000) as u32
}

// The signed number in the low 8 bits of a word, by two's complement.
pub fn low_i8(n: u64) -> i8
    ensures { result ≡ signed_of 1 (n % 0x100) }
{
    number::i8_of_bits(low_u8(n))
}

// The signed number in the low 32 bits of a word.
pub fn low_i32(n: u64) -> i32
    ensures { result ≡ signed_of 4 (n % 0x1_0000_0000) }
{
    number::i32_of_bits(low_u32(n))
}

// Every word but 0 is true.
pub fn is_set(n: u64) -> bool
    ensures { result ≡ not (eqb n 0) }
{
    n != 0
}

// A timestamp by two words.
pub fn timestamp(seconds: u64, nsec: u64) -> Timestamp
    ensures { result ≡ record { seconds = seconds; nsec = nsec % 0x1_0000_0000 } }
{
    Timestamp {
        seconds,
        nsec: low_u32(nsec),
    }
}

// Attributes by 14 words, in the order of their members.
pub fn attributes_of(numbers: &[u64; 14]) -> Attributes
    ensures { attributes_values result ≡ given (kinds attributes) numbers.now 0 [] [] }
{
    let atime = timestamp(numbers[8], numbers[9]);
    let mtime = timestamp(numbers[10], numbers[11]);
    let ctime = timestamp(numbers[12], numbers[13]);
    Attributes {
        inode: numbers[0],
        nlink: numbers[1],
        mode: low_u32(numbers[2]),
        uid: low_u32(numbers[3]),
        gid: low_u32(numbers[4]),
        rdev: numbers[5],
        size: numbers[6],
        blocks: numbers[7],
        atime,
        mtime,
        ctime,
    }
}

// Statistics by the first 8 words.
pub fn statistics_of(numbers: &[u64; 14]) -> Statistics
    ensures { statistics_values result ≡ given (kinds statistics) numbers.now 0 [] [] }
{
    Statistics {
        bsize: numbers[0],
        frsize: numbers[1],
        blocks: numbers[2],
        bfree: numbers[3],
        bavail: numbers[4],
        files: numbers[5],
        ffree: numbers[6],
        namemax: numbers[7],
    }
}

// What a writer answers to a type that has no such message.
pub fn unexpected() -> Written
    ensures { result ≡ Refused unexpected_type 0 }
{
    Written::Refused {
        number: Refusal::UNEXPECTED_TYPE,
        place: 0,
    }
}
