//! Reads the fields of lines, leniently: signs and leading zeros of numbers, and text in fields
//! that must be `-`, are accepted here. `Line::read` finds them, since it writes the line again
//! and compares.

ghost use Rattle.std.specs.Prelude.{◌≡◌, ◌<◌, ◌^◌, ◌++◌, List, ℕ, Option, Some, IfSome, codes, decimal, find};
ghost use Rattle.std.specs.Str.{bytes_eq};
ghost use Rattle.xbar_equip.specs.Link.{link_text};
ghost use Rattle.xbar_equip.specs.Path.{IsPath, path_text};
ghost use Rattle.xbar_equip.specs.declared.path.Path.{Path as ThePath};
ghost use Rattle.xbar_office.specs.Legal.{IsJob};
ghost use Rattle.xbar_office.specs.declared.job.Job.{Job as TheJob};
ghost use Rattle.xbar_office.specs.declared.reply.Card.{Card as TheCard};
ghost use Rattle.xbar_office.specs.declared.reply.End.{End as TheEnd};
ghost use Rattle.xbar_office.specs.declared.reply.Record.{Record as TheRecord};
ghost use Rattle.xbar_report.specs.Bare.{bare_record};
ghost use Rattle.xbar_report.specs.Ranges.{IsCard, IsEnd, IsRecord, IsTroubleLine};
ghost use Rattle.xbar_report.specs.Text.{count_line, end_fields, path_field, record_line, trouble_line};
ghost use Rattle.xbar_equip.specs.TextLines.{Lacks};
ghost use Rattle.xbar_report.specs.Parts.{end_first, end_name, end_second, end_trial, job_dialled, job_kind, job_line, plain_ends};
ghost use Rattle.xbar_report.specs.declared.line.TroubleLine.{TroubleLine as TheTroubleLine};

use crate::line::{TroubleLine, name_of};
use crate::reading::{split_at_byte, three_fields};
use std::str;
use xbar_equip::{Channel, Dialled, Len, Link, Path, Ten};
use xbar_office::{Card, End, Job, Record, Reply};

/// Reads the record of a line, without its cards.
pub fn record_of(text: &[u8]) -> Option<Record>
    ensures reads { (r : TheRecord) → IsRecord r → text.now ≡ record_line r →
        result ≡ Some (bare_record r) }
    ensures bare { IfSome result (λ r. r ≡ bare_record r) }
{
    let (turn, job_no, marker, rest) = three_fields(text)?;
    let (kind, line, dialled, rest) = three_fields(rest)?;
    Some(Record {
        turn: number(turn)?,
        marker: number_u32(marker)?,
        job_no: number_u32(job_no)?,
        job: job_of(kind, line, dialled)?,
        reply: Reply::plain(end_of(rest)?),
    })
}

/// Reads a trouble line.
pub fn trouble_of(text: &[u8]) -> Option<TroubleLine>
    ensures { (t : TheTroubleLine) → IsTroubleLine t → text.now ≡ trouble_line t → result ≡ Some t }
{
    let (_name, turn, job_no, rest) = three_fields(text)?;
    let (trial, rest) = split_at_byte(rest, b',')?;
    let (link, _behind) = split_at_byte(rest, b'\n')?;
    Some(TroubleLine {
        turn: number(turn)?,
        job_no: number_u32(job_no)?,
        card: card_of(trial, link)?,
    })
}

/// Reads a card from its two fields.
fn card_of(trial: &[u8], link: &[u8]) -> Option<Card>
    ensures { (card : TheCard) → IsCard card → trial.now ≡ decimal card.trial →
        link.now ≡ link_text card.link → result ≡ Some card }
{
    Some(Card {
        trial: number_u8(trial)?,
        link: Link::parse(link).ok()?,
    })
}

/// Reads the number of a count line. The name before it isn't checked.
pub fn count_of(text: &[u8]) -> Option<u16>
    ensures { (name : List ℕ) (count : ℕ) → Lacks 44 name → count < 2 ^ 16 →
        text.now ≡ count_line name count → result ≡ Some count }
{
    let (_name, rest) = split_at_byte(text, b',')?;
    let (count, _behind) = split_at_byte(rest, b'\n')?;
    number_u16(count)
}

/// Reads a job from its three fields.
fn job_of(kind: &[u8], line: &[u8], dialled: &[u8]) -> Option<Job>
    ensures { (job : TheJob) → IsJob job → kind.now ≡ job_kind job → line.now ≡ job_line job →
        dialled.now ≡ job_dialled job → result ≡ Some job }
{
    let line = Len::parse(line).ok()?;
    match kind {
        b"D" => Some(Job::Dial(line)),
        b"C" => Some(Job::Complete(line, Dialled::parse(dialled).ok()?)),
        b"R" => Some(Job::Release(line)),
        _ => None,
    }
}

/// Reads an end from the last four fields of a line.
fn end_of(text: &[u8]) -> Option<End>
    ensures { (end : TheEnd) → IsEnd end → text.now ≡ end_fields end ++ codes "\n" →
        result ≡ Some end }
{
    let (name, trial, first, rest) = three_fields(text)?;
    let (second, _behind) = split_at_byte(rest, b'\n')?;
    named_end(name, trial, first, second)
}

/// Reads an end from its four fields. A name that no end has is taken for `CONNECTED` here.
fn named_end(name: &[u8], trial: &[u8], first: &[u8], second: &[u8]) -> Option<End>
    ensures { (end : TheEnd) → IsEnd end → name.now ≡ end_name end → trial.now ≡ end_trial end →
        first.now ≡ end_first end → second.now ≡ end_second end → result ≡ Some end }
{
    if let Some(end) = plain_end_of(name) {
        return Some(end);
    }
    let path = path_of(first)?;
    let other = optional_path_of(second)?;
    if name == b"RELEASED".as_slice() {
        return Some(End::Released { own: path, other });
    }
    let trial = number_u8(trial)?;
    if name == b"DIALTONE".as_slice() {
        return Some(End::DialTone { path, trial });
    }
    Some(End::Connected {
        calling: path,
        called: other,
        trial,
    })
}

/// The end with this name, if it is one that has neither a trial nor a path.
fn plain_end_of(name: &[u8]) -> Option<End>
    ensures { result ≡ find (λ end. bytes_eq (end_name end) name.now) plain_ends }
{
    let plain_ends = [
        End::CalledBusy,
        End::LineBusy,
        End::RegistersBusy,
        End::TrunksBusy,
        End::NoPath,
        End::Trouble,
        End::VacantCode,
        End::VacantNumber,
        End::NoRegister,
        End::NoCall,
    ];
    end_named(&plain_ends, name)
}

/// The first of these ends with this name.
fn end_named(ends: &[End], name: &[u8]) -> Option<End>
    ensures { result ≡ find (λ end. bytes_eq (end_name end) name.now) ends.now }
{
    ends.iter()
        .find(|end| name_of(end).as_bytes() == name)
        .copied()
}

/// Reads the field of a path, in which `-` means no path.
fn optional_path_of(text: &[u8]) -> Option<Option<Path>>
    ensures { (path : Option ThePath) → IfSome path IsPath → text.now ≡ path_field path →
        result ≡ Some path }
{
    match text {
        b"-" => Some(None),
        _ => Some(Some(path_of(text)?)),
    }
}

/// Reads a path. The bytes between its parts aren't checked.
fn path_of(text: &[u8]) -> Option<Path>
    ensures { (path : ThePath) → IsPath path → text.now ≡ path_text path → result ≡ Some path }
{
    let (line, rest) = text.split_at_checked(4)?;
    let (_dash, rest) = rest.split_at_checked(1)?;
    let (channel, rest) = rest.split_at_checked(1)?;
    let (_dash, place) = rest.split_at_checked(1)?;
    Some(Path {
        line: Len::parse(line).ok()?,
        channel: Channel::parse(channel).ok()?,
        place: Ten::parse(place).ok()?,
    })
}

/// Reads a number in decimal digits. A plus sign and leading zeros are accepted.
pub fn number(text: &[u8]) -> Option<u64>
    ensures { (number : ℕ) → number < 2 ^ 64 → text.now ≡ decimal number → result ≡ Some number }
{
    match str::from_utf8(text) {
        Ok(text) => text.parse().ok(),
        Err(_) => None,
    }
}

/// The same for a number that fits in 32 bits.
pub fn number_u32(text: &[u8]) -> Option<u32>
    ensures { (number : ℕ) → number < 2 ^ 32 → text.now ≡ decimal number → result ≡ Some number }
{
    number(text)?.try_into().ok()
}

/// The same for a number that fits in 16 bits.
pub fn number_u16(text: &[u8]) -> Option<u16>
    ensures { (number : ℕ) → number < 2 ^ 16 → text.now ≡ decimal number → result ≡ Some number }
{
    number(text)?.try_into().ok()
}

/// The same for a number that fits in 8 bits.
pub fn number_u8(text: &[u8]) -> Option<u8>
    ensures { (number : ℕ) → number < 2 ^ 8 → text.now ≡ decimal number → result ≡ Some number }
{
    number(text)?.try_into().ok()
}
