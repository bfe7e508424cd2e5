ghost use Rattle.std.specs.Prelude.{◌≡◌, ◌+◌, ◌||◌, ℕ, All, Ok, IfOk, true, option_map, vec_len};
ghost use Rattle.csv.specs.Records.{fields_of};
ghost use Rattle.csv.specs.Reading.{default_config, records, strip_bom, stops_reader, error_kind};
ghost use Rattle.xbar_traffic.specs.Numbers.{contains};
ghost use Rattle.xbar_traffic.specs.Row.{IsRow, mode_of};
ghost use Rattle.xbar_traffic.specs.Traffic.{IsJudgedAs, IsTrafficOf, has_number};

use crate::fault::{RowFault, TrafficFault};
use crate::numbers::Numbers;
use crate::row::{Mode, Row};
use csv::{ByteRecord, Error, ErrorKind, ReaderBuilder};
use std::alloc::{AllocError, Global};

/// The rows of traffic up to the first with a fault: by itself, or by a number of an earlier row.
#[derive(Debug, Drop)]
pub struct Traffic {
    pub rows: Vec<Row>,
    /// The fault of the row after `rows`. None if all rows were read.
    pub fault: Option<RowFault>,
}

impl Traffic {
    /// Reads bytes as the whole of some traffic, whose rows must belong to this mode.
    pub fn read(alloc: Global, mode: Mode, bytes: &[u8]) -> Result<Traffic, AllocError>
        ensures traffic { IfOk result (λ traffic. IsTrafficOf mode
            (records default_config (strip_bom bytes.now)) traffic.rows.items traffic.fault) }
        ensures range { IfOk result (λ traffic. All IsRow traffic.rows.items) }
        ensures mode { IfOk result
            (λ traffic. All (λ row. mode_of row ≡ mode) traffic.rows.items) }
    {
        let mut reader = ReaderBuilder::new()
            .has_headers(false)
            .flexible(true)
            .from_reader(alloc, bytes);
        // All rows are read into one record, so that they don't allocate one each.
        let mut record = ByteRecord::new(alloc);
        let mut rows = Vec::new(alloc);
        let mut numbers = Numbers::new(alloc)?;
        for _row in 0..u64::MAX {
            match reader.read_byte_record(&mut record) {
                Ok(true) => {}
                Ok(false) => return Ok(Traffic { rows, fault: None }),
                Err(error) => return Err(out_of_memory(error)),
            }
            match judge(mode, &record, &mut numbers) {
                // `push` isn't proved if an enum of another crate is in the item.
                Ok(row) => rows.extend_from_slice(&[row])?,
                Err(fault) => {
                    let fault = Some(fault);
                    return Ok(Traffic { rows, fault });
                }
            }
        }
        // There is no room for that many rows.
        Err(AllocError)
    }

    /// The fault and the number of its row, if there is a fault.
    pub fn refusal(&self) -> Option<TrafficFault>
        ensures { result ≡ option_map (λ fault.
            record { row = vec_len self.now.rows + 1; fault = fault }) self.now.fault }
    {
        let row = self.rows.len() as u64 + 1;
        self.fault.map(|fault| TrafficFault { row, fault })
    }
}

/// Reads a row after rows with these numbers of jobs or calls, and adds its own number.
fn judge(mode: Mode, row: &ByteRecord, numbers: &mut Numbers) -> Result<Row, RowFault>
    ensures judged { IsJudgedAs mode (contains numbers.old) (fields_of row.now) result }
    ensures numbers { IfOk result (λ row. (number : ℕ) → contains numbers.new number ≡
        (contains numbers.old number || has_number number row)) }
{
    let row = match Row::read(mode, row) {
        Ok(row) => row,
        Err(wrong) => return Err(wrong.fault),
    };
    let number = match row {
        Row::Assign { job_no, .. } => job_no,
        Row::Steps { .. } => return Ok(row),
        Row::Call { call_no, .. } => call_no,
    };
    if numbers.insert(number) {
        Ok(row)
    } else {
        Err(RowFault::NumberTwice)
    }
}

/// The only reason why rows of any length can't be read from bytes in memory: memory ran out.
fn out_of_memory(error: Error) -> AllocError
    requires { stops_reader (error_kind error) ≡ true }
{
    match error.into_kind() {
        // `Io` never comes, since a slice's `read` returns no error, but no contract of `Read`
        // says so.
        ErrorKind::OutOfMemory | ErrorKind::Io(_) => AllocError,
        _ => unreachable!(),
    }
}
