// What the library leaves in lent buffers, against a record.
use crate::list::Record;

// Whether a lent buffer has the bytes that are expected, and that byte behind them to its end.
pub fn lent_is(lent: &[u8], expected: &[u8], rest: u8) -> bool {
    if lent.len() < expected.len() {
        return false;
    }
    let (start, end) = lent.split_at(expected.len());
    start == expected && end.iter().all(|byte| *byte == rest)
}

// What stands behind the result: a call that is refused leaves the lent bytes as they were filled, but 11 zeroes them.
pub fn rest_of(record: &Record, fill: u8) -> u8 {
    match record.refusal() {
        1..=10 | 15..=18 => fill,
        _ => 0,
    }
}
