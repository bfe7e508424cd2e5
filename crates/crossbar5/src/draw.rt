//! Drawings of the office after records that an audit finds legal.

ghost use Rattle.std.specs.Prelude.{◌≡◌, IfOk, List, Option, string_bytes};
ghost use Rattle.xbar_office.specs.Legal.{after};
ghost use Rattle.xbar_office.specs.declared.reply.Record.{Record as TheRecord};
ghost use Rattle.xbar_report.specs.Sheet.{IsReport, IsReportText};
ghost use Rattle.xbar_report.specs.Text.{records_text};
ghost use Rattle.xbar_report.specs.declared.line.Counts.{Counts as TheCounts};
ghost use Rattle.crossbar5.specs.Draw.{IsDrawUnder, drawn as drawn_by};

use crate::audit::{audit_text, office_after};
use crate::{Status, Written};
use crossbar5_task::DrawForm;
use std::alloc::{AllocError, Global};
use xbar_office_drawing::office_drawing;
use xbar_office_text::office_text;
use xbar_page::office_page;
use xbar_plan::Plan;
use xbar_report::{ReportFault, read};

/// Draws the office after a text of records. If an audit finds them wrong, returns the audit.
pub fn draw_text(
    alloc: Global,
    plan: &Plan,
    form: DrawForm,
    text: &[u8],
) -> Result<Written, AllocError>
    ensures { IfOk result (λ written.
        IsDrawUnder form plan.now text.now written.text.items written.status) }
{
    let told = audit_text(alloc, plan, text)?;
    if told.status != Status::Fine {
        return Ok(told);
    }
    Ok(Written {
        text: drawn(alloc, plan, form, text)?.into_bytes(),
        status: Status::Fine,
        diagnostic: Ok(None),
    })
}

/// The drawing of the office after the records of this text.
fn drawn(alloc: Global, plan: &Plan, form: DrawForm, text: &[u8]) -> Result<String, AllocError>
    requires { IsReportText text.now }
    ensures { (list : List TheRecord) (counts : Option TheCounts) → IsReport list counts →
        text.now ≡ records_text list counts →
        IfOk result (λ drawing. string_bytes drawing ≡
        drawn_by form plan.now (after plan.now list) list) }
{
    match read(alloc, text) {
        Ok(report) => {
            let office = office_after(alloc, plan, &report.records)?;
            match form {
                DrawForm::Text => office_text(alloc, plan, office.paths(), &report.records),
                DrawForm::Svg => office_drawing(alloc, plan, office.paths(), &report.records),
                DrawForm::Page => office_page(alloc, plan, &report.records),
            }
        }
        Err(ReportFault::Memory) => Err(AllocError),
        Err(ReportFault::Line { .. } | ReportFault::Turns { .. }) => unreachable!(),
    }
}
