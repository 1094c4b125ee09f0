// The words of an answer, written to standard output as they come.
use crate::checksum;

// The descriptor of the standard output.
const STDOUT: i32 = 1;

// These bytes.
pub(crate) fn put(s: &[u8]) {
    io::write_all(STDOUT, s);
}

// A number in decimal.
pub(crate) fn put_number(n: u64) {
    let mut digits = [0u8; 20];
    let len = io::decimal(n, &mut digits);
    put(&digits[..len]);
}

// A part by its length and checksum.
pub(crate) fn put_part(s: &[u8]) {
    put(b" ");
    put_number(s.len() as u64);
    put(b":");
    put_number(checksum::of_bytes(s));
}

// The checksum of these bytes.
pub(crate) fn put_hash(s: &[u8]) {
    put(b" ");
    put_number(checksum::of_bytes(s));
}

// The checksum of these lengths.
pub(crate) fn put_hash_of_lengths(lengths: &[u32]) {
    put(b" ");
    put_number(checksum::of_numbers(lengths));
}

// The checksum of a table.
pub(crate) fn put_hash_of_records(words: [u64; 64]) {
    put(b" records=");
    put_number(checksum::of_records(words));
}

// A refusal by its number and place.
pub(crate) fn put_refusal(number: u8, place: usize) {
    put(b"refused ");
    put_number(number as u64);
    put(b" at ");
    put_number(place as u64);
}
