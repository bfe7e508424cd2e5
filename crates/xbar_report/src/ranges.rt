//! Laws of all values of these types: their parts are in range. Each function does nothing: its
//! contract is the law.

ghost use Rattle.std.specs.Prelude.{◌≡◌, [], IfSome};
ghost use Rattle.xbar_equip.specs.Path.{IsPath};
ghost use Rattle.xbar_report.specs.Bare.{bare_line};
ghost use Rattle.xbar_report.specs.Line.{IsLine};
ghost use Rattle.xbar_report.specs.Ranges.{IsEnd, IsRecord, IsTroubleLine};

use crate::line::{Line, TroubleLine};
use xbar_equip::Path;
use xbar_equip::laws::{link_is_in_range, path_is_in_range};
use xbar_office::laws::job_is_in_range;
use xbar_office::{End, Record};

/// The numbers, jobs, paths and links of a line are in range.
pub fn line_is_in_range(line: &Line)
    requires { line.now ≡ bare_line line.now }
    ensures { IsLine line.now }
{
    match line {
        Line::Record(record) => record_is_in_range(record),
        Line::Trouble(trouble) => trouble_is_in_range(trouble),
        Line::Paths(count) | Line::Closed(count) => {
            let _count = *count;
        }
    }
}

fn record_is_in_range(of_job: &Record)
    requires { of_job.now.reply.cards ≡ [] }
    ensures { IsRecord of_job.now }
{
    let _turn = of_job.turn;
    let _marker = of_job.marker;
    let _job_no = of_job.job_no;
    job_is_in_range(&of_job.job);
    end_is_in_range(&of_job.reply.end);
}

fn trouble_is_in_range(trouble: &TroubleLine)
    ensures { IsTroubleLine trouble.now }
{
    let _turn = trouble.turn;
    let _job_no = trouble.job_no;
    let _trial = trouble.card.trial;
    link_is_in_range(trouble.card.link);
}

fn end_is_in_range(end: &End)
    ensures { IsEnd end.now }
{
    match end {
        End::DialTone { path, trial } => {
            let _trial = *trial;
            path_is_in_range(path);
        }
        End::Connected {
            calling,
            called,
            trial,
        } => {
            let _trial = *trial;
            path_is_in_range(calling);
            optional_path_is_in_range(called);
        }
        End::Released { own, other } => {
            path_is_in_range(own);
            optional_path_is_in_range(other);
        }
        _ => {}
    }
}

fn optional_path_is_in_range(path: &Option<Path>)
    ensures { IfSome path.now IsPath }
{
    if let Some(path) = path {
        path_is_in_range(path);
    }
}
