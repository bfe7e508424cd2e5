//! Diagnostics of traffic.

mod diagnostic;
mod records;

ghost use Rattle.std.specs.Prelude.{◌≡◌, IfOk, IfSome};

use csv::ByteRecord;
pub use diagnostic::{TrafficDiagnostic, TrafficReason};
use records::{line_of, records_up_to};
use std::alloc::{AllocError, Global};
use xbar_traffic::{Expected, MarkerFault, Mode, Row, RowFault, TrafficFault};

/// Finds what is wrong with traffic of this mode that was refused for this fault. Returns None if
/// there is no row with that number, or if the row doesn't have the fault. Whether a marker
/// refuses the row (T5) isn't checked.
pub fn traffic_diagnostic(
    alloc: Global,
    mode: Mode,
    bytes: &[u8],
    fault: TrafficFault,
) -> Result<Option<TrafficDiagnostic>, AllocError>
    ensures { IfOk result
        (λ diagnostic. IfSome diagnostic (λ diagnostic. diagnostic.fault ≡ fault)) }
{
    let records = records_up_to(alloc, bytes, fault.row)?;
    let Some((record, before)) = records.split_last() else {
        return Ok(None);
    };
    if records.len() as u64 != fault.row {
        return Ok(None);
    }
    let Some((index, reason)) = wrong_with_record(mode, bytes, before, record, fault.fault) else {
        return Ok(None);
    };
    let field = match record.get(index) {
        Some(text) => Some((index.saturating_add(1), text.to_vec(alloc)?)),
        None => None,
    };
    Ok(Some(TrafficDiagnostic {
        fault,
        line: Some(line_of(bytes, record)),
        field,
        reason,
    }))
}

/// The index of the field in which a record has this fault, and the reason. If the record is wrong
/// as a whole, the index is past its last field.
fn wrong_with_record(
    mode: Mode,
    bytes: &[u8],
    before: &[ByteRecord],
    record: &ByteRecord,
    fault: RowFault,
) -> Option<(usize, TrafficReason)> {
    match fault {
        RowFault::NumberTwice => number_twice(bytes, before, record),
        RowFault::Marker(why) => {
            let (field, words) = refused_by_marker(why);
            Some((field, TrafficReason::Expected(Expected::Words(words))))
        }
        _ => match Row::read(mode, record) {
            Err(wrong) if wrong.fault == fault => {
                Some((wrong.field, TrafficReason::Expected(wrong.expected)))
            }
            _ => None,
        },
    }
}

/// The index of the field that a marker refuses, and the reason.
fn refused_by_marker(why: MarkerFault) -> (usize, &'static str) {
    match why {
        MarkerFault::NoMarker => (1, "the office has no such marker"),
        MarkerFault::NotIdle => (
            1,
            "this marker is still at its job; give it more steps first",
        ),
        MarkerFault::WrongKind => (3, "this row's marker does no jobs of this kind"),
    }
}

/// The index of the field with the number of a job or a call, and the first row that has it too.
fn number_twice(
    bytes: &[u8],
    before: &[ByteRecord],
    record: &ByteRecord,
) -> Option<(usize, TrafficReason)> {
    let letter = record.get(0)?;
    let index = match letter {
        b"J" => 2,
        b"C" => 1,
        _ => return None,
    };
    let number = record.get(index)?;
    let earlier = before.iter().position(|row| row.get(0) == Some(letter)
        && row.get(index) == Some(number))?;
    let reason = TrafficReason::NumberTwice {
        row: (earlier as u64).saturating_add(1),
        line: line_of(bytes, before.get(earlier)?),
    };
    Some((index, reason))
}
