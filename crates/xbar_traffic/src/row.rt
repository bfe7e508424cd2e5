//! Rows of traffic, and how they are read from their fields.

ghost use Rattle.std.specs.Prelude.{◌≡◌, ◌≢◌, ◌≤◌, ℕ, Bool, List, [], ◌∷◌, ◌++◌, MatchOption, MatchResult, codes, decimal, length, ◌<◌, slice_index_or};
ghost use Rattle.csv.specs.Records.{fields_of};
ghost use Rattle.xbar_equip.specs.Dialled.{IsDialled, dialled_text};
ghost use Rattle.xbar_equip.specs.Len.{IsLine, Line, line_text};
ghost use Rattle.xbar_traffic.specs.Row.{IsRowRead, hold_letter};
ghost use Rattle.xbar_traffic.specs.Fields.{five_fields};
ghost use Rattle.xbar_traffic.specs.Job.{IsJobReadAs, is_job_kind as is_kind_of_job};

use crate::fault::{Expected, RowFault, WrongField};
use crate::numbers::read_number;
use csv::ByteRecord;
use xbar_equip::{Dialled, Len};
use xbar_office::Job;

/// What traffic is for.
#[derive(Clone, Copy, Debug, PartialEq, Eq)]
pub enum Mode {
    /// A schedule that is replayed: jobs for markers, and steps of markers.
    Replay,
    /// Calls that markers on threads serve.
    Live,
}

/// What a row of traffic asks for.
#[derive(Clone, Copy, Debug, PartialEq, Eq)]
pub enum Row {
    /// Assigns a job to a marker, which makes no step.
    Assign {
        /// 0 to 99.
        marker: u32,
        /// 0 to 9999.
        job_no: u32,
        job: Job,
    },
    /// Has a marker make `count` steps.
    Steps {
        /// 0 to 99.
        marker: u32,
        /// 0 to 9999.
        count: u32,
    },
    /// A call in a live office: the line gets dial tone and dials.
    Call {
        /// 0 to 9999.
        call_no: u32,
        line: Len,
        dialled: Dialled,
        /// The call is released once it is connected; else it is kept.
        release: bool,
    },
}

impl Row {
    /// Reads a record as a row of this mode. Earlier rows aren't considered.
    pub fn read(mode: Mode, row: &ByteRecord) -> Result<Row, WrongField>
        ensures { IsRowRead mode (fields_of row.now) result }
    {
        match Fields::of(row) {
            Some(fields) => Row::of_fields(mode, &fields),
            None => Err(WrongField {
                fault: RowFault::Unreadable,
                field: row.len(),
                expected: Expected::FiveFields(row.len()),
            }),
        }
    }

    fn of_fields(mode: Mode, fields: &Fields<'_>) -> Result<Row, WrongField>
        ensures { IsRowRead mode (five_fields fields.now) result }
    {
        match mode {
            Mode::Replay => Row::of_replay(fields),
            Mode::Live => Row::of_live(fields),
        }
    }

    fn of_replay(fields: &Fields<'_>) -> Result<Row, WrongField>
        ensures { IsRowRead Mode.Replay (five_fields fields.now) result }
    {
        match fields.first {
            b"J" => Row::assign(fields.second, fields.third, fields.fourth, fields.fifth),
            b"S" => Row::steps(fields.second, fields.third, fields.fourth, fields.fifth),
            b"C" => Err(WrongField::new(RowFault::OtherMode, 0, A_CALL)),
            _ => Err(WrongField::new(RowFault::UnknownKind, 0, "expected J or S")),
        }
    }

    fn of_live(fields: &Fields<'_>) -> Result<Row, WrongField>
        ensures { IsRowRead Mode.Live (five_fields fields.now) result }
    {
        match fields.first {
            b"J" | b"S" => Err(WrongField::new(RowFault::OtherMode, 0, A_REPLAY)),
            b"C" => Row::call(fields.second, fields.third, fields.fourth, fields.fifth),
            _ => Err(WrongField::new(RowFault::UnknownKind, 0, "expected C")),
        }
    }

    fn assign(marker: &[u8], job_no: &[u8], kind: &[u8], args: &[u8]) -> Result<Row, WrongField>
        ensures { IsRowRead Mode.Replay
            (codes "J" ∷ marker.now ∷ job_no.now ∷ kind.now ∷ args.now ∷ []) result }
    {
        if !is_job_kind(kind) {
            return Err(WrongField::new(RowFault::UnknownKind, 3, "expected D, C or R"));
        }
        let marker = number_in(1, marker, MARKER_LIMIT)?;
        let job_no = number_in(2, job_no, NUMBER_LIMIT)?;
        match read_job(kind, args) {
            Ok(job) => Ok(Row::Assign {
                marker,
                job_no,
                job,
            }),
            Err(_) => Err(WrongField::new(RowFault::Malformed, 4, expected_args(kind))),
        }
    }

    fn steps(marker: &[u8], count: &[u8], fourth: &[u8], fifth: &[u8]) -> Result<Row, WrongField>
        ensures { IsRowRead Mode.Replay
            (codes "S" ∷ marker.now ∷ count.now ∷ fourth.now ∷ fifth.now ∷ []) result }
    {
        let marker = number_in(1, marker, MARKER_LIMIT)?;
        let count = number_in(2, count, NUMBER_LIMIT)?;
        if !fourth.is_empty() {
            return Err(WrongField::new(RowFault::Malformed, 3, "expected an empty field"));
        }
        if !fifth.is_empty() {
            return Err(WrongField::new(RowFault::Malformed, 4, "expected an empty field"));
        }
        Ok(Row::Steps { marker, count })
    }

    fn call(call_no: &[u8], line: &[u8], dialled: &[u8], hold: &[u8]) -> Result<Row, WrongField>
        ensures { IsRowRead Mode.Live
            (codes "C" ∷ call_no.now ∷ line.now ∷ dialled.now ∷ hold.now ∷ []) result }
    {
        let call_no = number_in(1, call_no, NUMBER_LIMIT)?;
        let Ok(line) = read_line(line) else {
            return Err(WrongField::new(RowFault::Malformed, 2, EXPECTED_LINE));
        };
        let Ok(dialled) = read_dialled(dialled) else {
            return Err(WrongField::new(RowFault::Malformed, 3, "expected seven digits"));
        };
        let Ok(release) = read_release(hold) else {
            return Err(WrongField::new(RowFault::Malformed, 4, "expected K or R"));
        };
        Ok(Row::Call {
            call_no,
            line,
            dialled,
            release,
        })
    }
}

/// The highest number of a marker that a row may have.
const MARKER_LIMIT: u32 = 99;
/// The highest number of a job or a call that a row may have, and the most steps.
const NUMBER_LIMIT: u32 = 9999;

/// What is said of a row of the other mode.
const A_CALL: &str = "this is a call of a live office; expected J or S";

const A_REPLAY: &str = "this is a row of a replay; expected C";

/// What is expected of a line.
const EXPECTED_LINE: &str =
    "expected a line of four digits, the third at most 5 and the fourth at most 4";

/// What is expected of the arguments of a job of this kind.
fn expected_args(kind: &[u8]) -> &'static str {
    match kind {
        b"C" => "expected a line, a space and seven digits",
        _ => EXPECTED_LINE,
    }
}

/// Reads the number in the field with this index.
fn number_in(field: usize, text: &[u8], most: u32) -> Result<u32, WrongField>
    ensures { MatchResult result (λ number. (number ≤ most) × (text.now ≡ decimal number))
        (λ wrong. ((number : ℕ) → number ≤ most → text.now ≢ decimal number)
        × (wrong.fault ≡ RowFault.Malformed)) }
{
    match read_number(text, most) {
        Some(number) => Ok(number),
        None => Err(WrongField {
            fault: RowFault::Malformed,
            field,
            expected: Expected::NumberTo(most),
        }),
    }
}

fn is_job_kind(kind: &[u8]) -> bool
    ensures { result ≡ is_kind_of_job kind.now }
{
    matches!(kind, b"D" | b"C" | b"R")
}

/// Reads a job from the last two fields of a `J` row.
fn read_job(kind: &[u8], args: &[u8]) -> Result<Job, RowFault>
    ensures { IsJobReadAs kind.now args.now result }
{
    match kind {
        b"D" => Ok(Job::Dial(read_line(args)?)),
        b"C" => read_complete(args),
        b"R" => Ok(Job::Release(read_line(args)?)),
        _ => Err(RowFault::UnknownKind),
    }
}

/// Reads a completing job from a line and the digits that it dialled, as in `3041 5551234`.
#[tactic(auto, using(crate::proofs::JobFields::no_space, crate::proofs::JobFields::no_line))]
fn read_complete(args: &[u8]) -> Result<Job, RowFault>
    ensures { IsJobReadAs (codes "C") args.now result }
{
    let (line, dialled) = split_after_line(args).ok_or(RowFault::Malformed)?;
    let line = read_line(line)?;
    let dialled = read_dialled(dialled)?;
    Ok(Job::Complete(line, dialled))
}

/// The first four bytes of a text and, after a space, the rest.
fn split_after_line(text: &[u8]) -> Option<(&[u8], &[u8])>
    ensures { MatchOption result ((line rest : List ℕ) → length line ≡ 4 →
        text.now ≢ line ++ (codes " " ++ rest))
        (λ parts. (length parts.0.now ≡ 4) × (text.now ≡ parts.0.now ++
        (codes " " ++ parts.1.now))) }
{
    let (line, rest) = text.split_at_checked(4)?;
    Some((line, rest.strip_prefix(b" ")?))
}

fn read_line(text: &[u8]) -> Result<Len, RowFault>
    ensures { MatchResult result (λ line. IsLine line × (text.now ≡ line_text line))
        (λ fault. ((line : Line) → IsLine line → text.now ≢ line_text line) ×
        (fault ≡ RowFault.Malformed)) }
{
    Len::parse(text).map_err(|_| RowFault::Malformed)
}

fn read_dialled(text: &[u8]) -> Result<Dialled, RowFault>
    ensures { MatchResult result (λ dialled. IsDialled dialled × (text.now ≡ dialled_text dialled))
        (λ fault. ((dialled : ℕ) → IsDialled dialled → text.now ≢ dialled_text dialled) ×
        (fault ≡ RowFault.Malformed)) }
{
    Dialled::parse(text).map_err(|_| RowFault::Malformed)
}

/// Reads whether a call is released once it is connected (`R`) or kept (`K`).
fn read_release(text: &[u8]) -> Result<bool, RowFault>
    ensures { MatchResult result (λ release. text.now ≡ hold_letter release)
        (λ fault. ((release : Bool) → text.now ≢ hold_letter release) ×
        (fault ≡ RowFault.Malformed)) }
{
    match text {
        b"K" => Ok(false),
        b"R" => Ok(true),
        _ => Err(RowFault::Malformed),
    }
}

/// The fields of a row that has five of them.
#[derive(Clone, Copy)]
pub struct Fields<'r> {
    pub first: &'r [u8],
    pub second: &'r [u8],
    pub third: &'r [u8],
    pub fourth: &'r [u8],
    pub fifth: &'r [u8],
}

impl<'r> Fields<'r> {
    /// The fields of a row. None if there aren't exactly five.
    pub fn of(row: &'r ByteRecord) -> Option<Self>
        ensures { MatchOption result (length (fields_of row.now) ≢ 5)
            (λ fields. fields_of row.now ≡ five_fields fields) }
    {
        if row.len() != 5 {
            return None;
        }
        Some(Fields {
            first: field(row, 0),
            second: field(row, 1),
            third: field(row, 2),
            fourth: field(row, 3),
            fifth: field(row, 4),
        })
    }
}

/// The field at an index.
fn field(row: &ByteRecord, index: usize) -> &[u8]
    requires { index < length (fields_of row.now) }
    ensures { result.now ≡ slice_index_or (fields_of row.now) index [] }
{
    row.get(index).unwrap()
}
