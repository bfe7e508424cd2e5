//! Reads reports back from their text, line by line.

ghost use Rattle.std.specs.Prelude.{◌≡◌, List, Option, IfErr, IfOk, MatchResult, ◌++◌, ◌==◌, ◌∷◌, ℕ, IfNone, IfSome, IsSomeAnd, position};
ghost use Rattle.xbar_office.specs.declared.reply.Record.{Record as TheRecord};
ghost use Rattle.xbar_report.specs.Draft.{IsLineFault, IsReadAs};
ghost use Rattle.xbar_report.specs.Reading.{IsFaultOf};
ghost use Rattle.xbar_report.specs.Sheet.{IsReport};
ghost use Rattle.xbar_report.specs.Text.{records_text};
ghost use Rattle.xbar_report.specs.declared.line.Counts.{Counts as TheCounts};
ghost use Rattle.xbar_equip.specs.TextLines.{IsWholeLine, Lacks};

use crate::deal::deal;
use crate::line::{Counts, Line, TroubleLine};
use crate::report_fault::ReportFault;
use std::alloc::{AllocError, Global};
use xbar_office::{Record, first_wrong_turn};

/// What the text of a report says of a run.
#[derive(Debug, Drop)]
pub struct Report {
    /// In turn order, each with its cards.
    pub records: Vec<Record>,
    pub counts: Option<Counts>,
}

/// Reads the lines of a text, each by itself. The turns of the records and the owners of the cards
/// aren't checked here.
fn read_lines(alloc: Global, text: &[u8]) -> Result<(Draft, Option<Counts>), ReportFault>
    ensures lines { IfOk result (λ found. IsReadAs text.now (record {
      records = found.0.records.items;
      cards = found.0.cards.items;
      counts = found.1;
    })) }
    ensures fault { IfErr result (IsLineFault text.now) }
{
    let mut draft = Draft::new(alloc);
    let mut number = 1;
    let mut rest = text;
    while let Some((line, behind)) = first_line(rest) {
        let Some(line) = Line::read(alloc, line)? else {
            return Err(ReportFault::Line { number });
        };
        if !draft.add(line)? {
            return Err(ReportFault::Line { number });
        }
        number += 1;
        rest = behind;
    }
    match draft.tally {
        Tally::Missing if rest.is_empty() => Ok((draft, None)),
        Tally::Whole(counts) if rest.is_empty() => Ok((draft, Some(counts))),
        _ => Err(ReportFault::Line { number }),
    }
}

/// Reads the text of a report: record lines, then the lines of trouble cards, then two count lines
/// or none. The records have the turns 0, 1, 2 and so on. The cards are in turn order, each with
/// the job number of its record. Each number has one form, and each line ends with one line feed.
pub fn read(alloc: Global, text: &[u8]) -> Result<Report, ReportFault>
    // The report that was read has exactly this text.
    ensures only { IfOk result (λ report. IsReport report.records.items report.counts ×
        (text.now ≡ records_text report.records.items report.counts)) }
    // A report with this text is read, unless memory is refused.
    ensures reads { (records : List TheRecord) (counts : Option TheCounts) →
        IsReport records counts → text.now ≡ records_text records counts →
        MatchResult result
        (λ report. (report.records.items ≡ records) × (report.counts ≡ counts))
        (λ fault. fault ≡ ReportFault.Memory) }
    ensures fault { IfErr result (IsFaultOf text.now) }
{
    let (draft, counts) = read_lines(alloc, text)?;
    let Draft {
        mut records,
        cards,
        ..
    } = draft;
    if let Some(place) = first_wrong_turn(&records) {
        return Err(ReportFault::Turns { place });
    }
    let left = deal(&mut records, &cards);
    if left > 0 {
        let number = records.len() + (cards.len() - left) + 1;
        return Err(ReportFault::Line { number });
    }
    Ok(Report { records, counts })
}

/// The lines of a report that have been read so far.
#[derive(Drop)]
pub struct Draft {
    /// Without their cards.
    pub records: Vec<Record>,
    pub cards: Vec<TroubleLine>,
    pub tally: Tally,
}

/// The count lines that have been read so far.
#[derive(Clone, Copy)]
pub enum Tally {
    Missing,
    Begun { paths: u16 },
    Whole(Counts),
}

impl Draft {
    ghost use Rattle.std.specs.Prelude.{◌≡◌, ◌++◌, ◌∷◌, [], None, IfOk, MatchBool};
    ghost use Rattle.xbar_report.specs.Draft.{draft_lines, stage_of};
    ghost use Rattle.xbar_report.specs.Line.{next_stage};

    pub fn new(alloc: Global) -> Self
        ensures { draft_lines result ≡ [] }
    {
        Draft {
            records: Vec::new(alloc),
            cards: Vec::new(alloc),
            tally: Tally::Missing,
        }
    }

    /// Adds a line if it may follow those that are there. Returns whether it may; if not, nothing
    /// is added.
    pub fn add(&mut self, line: Line) -> Result<bool, AllocError>
        ensures { IfOk result (λ added. MatchBool added
            (draft_lines self.new ≡ draft_lines self.old ++ line ∷ [])
            (next_stage (stage_of self.old) line ≡ None)) }
    {
        match (self.tally, line) {
            (Tally::Missing, Line::Record(record)) if self.cards.is_empty() => {
                self.records.push(record)?;
            }
            (Tally::Missing, Line::Trouble(card)) => self.cards.push(card)?,
            (Tally::Missing, Line::Paths(paths)) => self.tally = Tally::Begun { paths },
            (Tally::Begun { paths }, Line::Closed(closed)) => {
                self.tally = Tally::Whole(Counts { paths, closed });
            }
            _ => return Ok(false),
        }
        Ok(true)
    }
}

/// The parts of a text before and after its first byte `end`, if it has one.
pub fn split_at_byte(text: &[u8], end: u8) -> Option<(&[u8], &[u8])>
    ensures parts { IfSome result (λ parts. Lacks end parts.0.now ×
        (text.now ≡ parts.0.now ++ end ∷ parts.1.now)) }
    ensures first { (front rest : List ℕ) → Lacks end front → text.now ≡ front ++ end ∷ rest →
        IsSomeAnd result (λ parts. (parts.0.now ≡ front) × (parts.1.now ≡ rest)) }
    ensures none { IfNone result (Lacks end text.now) }
{
    let (front, back) = text.split_at(place_of(text, end)?);
    let (_end, rest) = back.split_first()?;
    Some((front, rest))
}

/// The first three fields of a text, each ended by a comma, and the rest of the text.
pub fn three_fields(text: &[u8]) -> Option<(&[u8], &[u8], &[u8], &[u8])>
    ensures { (one two three rest : List ℕ) → Lacks 44 one → Lacks 44 two → Lacks 44 three →
        text.now ≡ one ++ 44 ∷ (two ++ 44 ∷ (three ++ 44 ∷ rest)) → IsSomeAnd result (λ found.
        (found.0.now ≡ one) × (found.1.now ≡ two) × (found.2.now ≡ three) × (found.3.now ≡ rest)) }
{
    let (one, rest) = split_at_byte(text, b',')?;
    let (two, rest) = split_at_byte(rest, b',')?;
    let (three, rest) = split_at_byte(rest, b',')?;
    Some((one, two, three, rest))
}

fn place_of(text: &[u8], byte: u8) -> Option<usize>
    ensures { result ≡ position (λ b. b == byte) text.now }
{
    text.iter().position(|b| *b == byte)
}

/// The first line of a text, with its line feed, and the rest. None if there is no line feed.
pub fn first_line(text: &[u8]) -> Option<(&[u8], &[u8])>
    ensures line { IfSome result (λ parts. IsWholeLine parts.0.now ×
        (text.now ≡ parts.0.now ++ parts.1.now)) }
    ensures none { IfNone result (Lacks 10 text.now) }
{
    let place = place_of(text, b'\n')?;
    Some(text.split_at(place + 1))
}
