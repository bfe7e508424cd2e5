ghost use Rattle.std.specs.Prelude.{◌≡◌, ◌++◌, IfOk, OnOk, flat_map, string_bytes};
ghost use Rattle.xbar_report.specs.Text.{record_line, card_lines, report_text};

use crate::line::{RecordLine, TroubleLine};
use std::alloc::{AllocError, Global};
use xbar_office::Record;

/// The text of a run: the lines of these records, those of their trouble cards, and the counts of
/// paths and of closed crosspoints at the end.
pub fn report(
    alloc: Global,
    records: &[Record],
    paths: u16,
    closed: u16,
) -> Result<Vec<u8>, AllocError>
    ensures { IfOk result (λ text. text.items ≡ report_text records.now paths closed) }
{
    let mut text = String::new(alloc);
    add_records(&mut text, records)?;
    add_cards(&mut text, records)?;
    write!(text, "PATHS,{paths}\nCLOSED,{closed}\n")?;
    Ok(text.into_bytes())
}

/// The text of one record: its line and those of its cards.
pub fn record_text(alloc: Global, owner: &Record) -> Result<String, AllocError>
    ensures { IfOk result (λ text.
        string_bytes text ≡ record_line owner.now ++ card_lines owner.now) }
{
    let mut text = format!(in alloc; "{}", RecordLine(owner))?;
    add_cards_of(&mut text, owner)?;
    Ok(text)
}

fn add_records(text: &mut String, records: &[Record]) -> Result<(), AllocError>
    ensures { OnOk result (string_bytes text.new ≡ string_bytes text.old ++
        flat_map record_line records.now) }
{
    for record in records {
        write!(text, "{}", RecordLine(record))?;
    }
    Ok(())
}

fn add_cards(text: &mut String, records: &[Record]) -> Result<(), AllocError>
    ensures { OnOk result (string_bytes text.new ≡ string_bytes text.old ++
        flat_map card_lines records.now) }
{
    for record in records {
        add_cards_of(text, record)?;
    }
    Ok(())
}

fn add_cards_of(text: &mut String, owner: &Record) -> Result<(), AllocError>
    ensures { OnOk result (string_bytes text.new ≡ string_bytes text.old ++ card_lines owner.now) }
{
    for card in owner.reply.cards.as_slice() {
        let line = TroubleLine {
            turn: owner.turn,
            job_no: owner.job_no,
            card: *card,
        };
        write!(text, "{line}")?;
    }
    Ok(())
}
