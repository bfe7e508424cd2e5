//! Looks: traffic is done in an office, and the office is shown as it stands then.

ghost use Rattle.std.specs.Prelude.{◌≡◌, ◌-◌, ◌≤◌, IfOk, drop, length, string_bytes};
ghost use Rattle.xbar_office.specs.Legal.{after};
ghost use Rattle.xbar_office_drawing.specs.Drawing.{office_drawing as drawing_of};
ghost use Rattle.crossbar5_task.specs.declared.task.LookForm.{LookForm};
ghost use Rattle.crossbar5.specs.Look.{BeginsWithComma, IsLookUnder, shown as shown_of};

use crate::audit::office_after;
use crate::rows::reach;
use crate::{Status, Written, refused};
use crossbar5_task::LookForm;
use std::alloc::{AllocError, Global};
use xbar_core::{Exchange, Kinds};
use xbar_look::{look_json, look_words};
use xbar_office_drawing::office_drawing;
use xbar_plan::Plan;
use xbar_traffic::{Mode, Row, Traffic};
use xbar_walk::{Detail, Story};

/// A list of values, each after a comma, without the first comma.
fn without_first_comma(list: &str) -> &str
    requires { BeginsWithComma list.now }
    ensures { result.now ≡ drop 1 list.now }
{
    match list.strip_prefix(',') {
        Some(rest) => rest,
        None => list,
    }
}

/// The office as it stands.
fn shown(
    alloc: Global,
    form: LookForm,
    office: &Exchange<'_>,
    events: &str,
) -> Result<Written, AllocError>
    ensures { IfOk result (λ written. (written.text.items
        ≡ shown_of form office.now.plan office.now.exchange events.now)
        × (written.status ≡ Status.Fine)) }
{
    let text = match form {
        LookForm::Words => look_words(alloc, office)?,
        LookForm::Json => look_json(alloc, office, events)?.into_bytes(),
        LookForm::Svg => drawn(alloc, office)?.into_bytes(),
    };
    Ok(Written {
        text,
        status: Status::Fine,
        diagnostic: Ok(None),
    })
}

/// The drawing of the office after its records.
fn drawn(alloc: Global, office: &Exchange<'_>) -> Result<String, AllocError>
    ensures { IfOk result (λ drawing. string_bytes drawing ≡ drawing_of office.now.plan
        (after office.now.plan office.now.exchange.records) office.now.exchange.records) }
{
    let after = office_after(alloc, office.plan(), office.records())?;
    office_drawing(alloc, office.plan(), after.paths(), office.records())
}

/// Of how many rows, from the first on, a look shows no events: of all, or of all but the last.
fn unobserved_count(form: LookForm, rows: &[Row]) -> usize
    ensures within { result ≤ length rows.now }
    ensures json { form ≡ LookForm.Json → result ≡ length rows.now - 1 }
{
    match form {
        LookForm::Json => rows.len().saturating_sub(1),
        LookForm::Words | LookForm::Svg => rows.len(),
    }
}

/// Does the traffic of these bytes in a new office, and shows the office as it stands then.
pub fn look(
    alloc: Global,
    plan: &Plan,
    kinds: &Kinds,
    form: LookForm,
    bytes: &[u8],
) -> Result<Written, AllocError>
    ensures { IfOk result (λ written.
        IsLookUnder form plan.now kinds.now bytes.now written.text.items written.status) }
{
    let traffic = Traffic::read(alloc, Mode::Replay, bytes)?;
    let unobserved = unobserved_count(form, &traffic.rows);
    let mut story = Story::new(alloc, Detail::JsonList);
    match reach(alloc, plan, kinds, &traffic, unobserved, &mut story)? {
        Ok(office) => {
            let events = story.finish()?;
            shown(alloc, form, &office, without_first_comma(&events))
        }
        Err(fault) => refused(alloc, Mode::Replay, bytes, fault),
    }
}
