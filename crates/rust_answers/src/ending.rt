// The file's last record: the count of those before it, and the check sum of all bytes before the sum.
use shims::bytes::{byte_at, part};
use shims::sums::{check_sum, long};

// The file ends with the record at `at`, and that says what it should.
pub fn is_whole(file: &[u8], at: usize, records: usize) -> bool {
    let said = part(file, at, 9);
    file.len() == at.wrapping_add(9)
        && byte_at(said, 0) == 0
        && long(part(said, 1, 4)) == records as u64
        && long(part(said, 5, 4)) == check_sum(part(file, 0, at.wrapping_add(5)))
}
