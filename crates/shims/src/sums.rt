// The check sum of a file of recorded answers, and a number as such a file has it.
use crate::bytes::first;

fn more(sum: u64, byte: u8) -> u64 {
    (sum % 4294967291 * 31 + u64::from(byte)) % 4294967291
}

pub fn check_sum(s: &[u8]) -> u64 {
    s.iter().fold(0, |sum, byte| more(sum, *byte))
}

pub fn long(s: &[u8]) -> u64 {
    u64::from(u32::from_le_bytes(first(s)))
}
