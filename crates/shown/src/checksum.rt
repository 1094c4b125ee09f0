// The checksums of an answer.
ghost use Rattle.std.specs.Prelude.{◌≡◌};
ghost use Rattle.number.specs.BigEndian.{bytes_of};
ghost use Rattle.outstanding_records.specs.Words.{records as records_of};
ghost use Rattle.shown.specs.Checksum.{with_byte, checksum_after, checksum, numbers_bytes, fields_bytes, record_bytes, records_bytes};

use outstanding_records::{Record, SIZE};

const FACTOR: u64 = 257;

const MODULUS: u64 = 4_294_967_291;

// The checksum of bytes.
pub(crate) fn of_bytes(s: &[u8]) -> u64
    ensures { result ≡ checksum s.now }
{
    with_bytes(0, s)
}

// The checksum of numbers, each as 4 bytes.
pub(crate) fn of_numbers(numbers: &[u32]) -> u64
    ensures { result ≡ checksum (numbers_bytes numbers.now) }
{
    let mut h = 0;
    let mut i = 0;
    while i < numbers.len() {
        h = with_number(h, numbers[i]);
        i += 1;
    }
    h
}

// The checksum of the records that words are, each as 6 bytes: whether it is held, its id, its type.
pub(crate) fn of_records(words: [u64; SIZE]) -> u64
    ensures { result ≡ checksum (records_bytes (records_of words)) }
{
    let mut h = 0;
    let mut i = 0;
    while i < SIZE {
        h = with_record(h, Record::from(words[i]));
        i += 1;
    }
    h
}

// ---- the checksum of what `h` is the checksum of, and more behind it

// The first remainder keeps the product from wrapping.
fn with_byte(h: u64, b: u8) -> u64
    ensures { result ≡ with_byte h b }
{
    (h % MODULUS * FACTOR + b as u64 + 1) % MODULUS
}

fn with_bytes(h: u64, s: &[u8]) -> u64
    ensures { result ≡ checksum_after h s.now }
{
    let mut so_far = h;
    let mut i = 0;
    while i < s.len() {
        so_far = with_byte(so_far, s[i]);
        i += 1;
    }
    so_far
}

fn with_number(h: u64, n: u32) -> u64
    ensures { result ≡ checksum_after h (bytes_of 4 n) }
{
    let mut bytes = [0u8; 4];
    number::store_u32(&mut bytes, 0, n);
    with_bytes(h, &bytes)
}

fn with_record(h: u64, r: Record) -> u64
    ensures { result ≡ checksum_after h (record_bytes r) }
{
    match r {
        Record::Free => with_fields(h, 0, 0, 0),
        Record::Held { id, request } => with_fields(h, 1, id, request.type_number),
    }
}

fn with_fields(h: u64, held: u8, id: u32, type_number: u8) -> u64
    ensures { result ≡ checksum_after h (fields_bytes held id type_number) }
{
    with_byte(with_number(with_byte(h, held), id), type_number)
}
