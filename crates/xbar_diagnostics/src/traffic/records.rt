//! The records of traffic, and the lines on which they begin.

use csv::{ByteRecord, ReaderBuilder};
use std::alloc::{AllocError, Global};

/// The mark that a text may begin with. It is no part of the first record.
const BYTE_ORDER_MARK: &[u8] = b"\xEF\xBB\xBF";

/// The first `count` records of traffic, or all if there are fewer.
pub fn records_up_to(
    alloc: Global,
    bytes: &[u8],
    count: u64,
) -> Result<Vec<ByteRecord>, AllocError> {
    let reader = ReaderBuilder::new()
        .has_headers(false)
        .flexible(true)
        .from_reader(alloc, bytes);
    let mut rows = reader.into_byte_records();
    let mut records = Vec::new(alloc);
    for _ in 0..count {
        match rows.next() {
            Some(Ok(record)) => records.push(record)?,
            // A reader of bytes in memory fails only if memory is refused.
            Some(Err(_)) => return Err(AllocError),
            None => break,
        }
    }
    Ok(records)
}

/// The line on which a record begins, counted from 1.
pub fn line_of(bytes: &[u8], record: &ByteRecord) -> u64 {
    let read = record.position().map_or(0, |position| position.byte()) as usize;
    let mark = if bytes.starts_with(BYTE_ORDER_MARK) {
        BYTE_ORDER_MARK.len()
    } else {
        0
    };
    // The bytes that were read before end with the previous record. The second byte of its line
    // end may follow, and empty lines.
    let start = read.max(mark);
    let rest = bytes.get(start..).unwrap_or(&[]);
    let empty = rest.iter().take_while(|byte| is_line_end(**byte)).count();
    let before = bytes.get(..start.saturating_add(empty)).unwrap_or(bytes);
    line_ends(before).saturating_add(1)
}

fn is_line_end(byte: u8) -> bool {
    byte == b'\n' || byte == b'\r'
}

/// The number of line ends: LF, CR and CR LF are one each.
fn line_ends(bytes: &[u8]) -> u64 {
    let mut count = 0u64;
    let mut previous = 0;
    for byte in bytes {
        if *byte == b'\r' || (*byte == b'\n' && previous != b'\r') {
            count = count.saturating_add(1);
        }
        previous = *byte;
    }
    count
}
