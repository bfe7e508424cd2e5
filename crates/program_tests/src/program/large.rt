//! A large replay, and a text of many records.

use super::*;
use crossbar5::{PlanSource, Status, do_task, run_replay};
use crossbar5_task::{DrawForm, Task};
use std::test::Fail;
use test_tools::{check, check_eq};
use xbar_core::Kinds;

const CALLS: u32 = 120;

/// A plan with forty registers on frame 0, and trunks for code 555 on frames 1 to 4, four on each
/// switch.
const WIDE_PLAN: &str = "version = 1
groups = [
  \"REG register 000 001 002 003 004 005 006 007 008 009 010 011 012 013 014 015 016 017 018 019 \
020 021 022 023 024 025 026 027 028 029 030 031 032 033 034 035 036 037 038 039\",
  \"OUT1 outgoing 100 110 120 130 140 150 160 170 180 190 101 111 121 131 141 151 161 171 181 191 \
102 112 122 132 142 152 162 172 182 192 103 113 123 133 143 153 163 173 183 193\",
  \"OUT2 outgoing 200 210 220 230 240 250 260 270 280 290 201 211 221 231 241 251 261 271 281 291 \
202 212 222 232 242 252 262 272 282 292 203 213 223 233 243 253 263 273 283 293\",
  \"OUT3 outgoing 300 310 320 330 340 350 360 370 380 390 301 311 321 331 341 351 361 371 381 391 \
302 312 322 332 342 352 362 372 382 392 303 313 323 333 343 353 363 373 383 393\",
  \"OUT4 outgoing 400 410 420 430 440 450 460 470 480 490 401 411 421 431 441 451 461 471 481 491 \
402 412 422 432 442 452 462 472 482 492 403 413 423 433 443 453 463 473 483 493\",
]
numbers = []
codes = [\"555 OUT1 OUT2 OUT3 OUT4\"]
faults = []
";

/// Calls to other offices, each from a line of its own, one after another.
fn calls(alloc: Global) -> Result<String, AllocError> {
    let mut traffic = String::new(alloc);
    for call in 0..CALLS {
        // Frame, switch and vertical group of the line.
        let (l, s, v) = (call % 10, call / 10 % 10, call / 100);
        let (first, second) = (2 * call + 1, 2 * call + 2);
        write!(traffic, "J,0,{first},D,{l}{s}{v}0\nS,0,128,,\n")?;
        write!(traffic, "J,0,{second},C,{l}{s}{v}0 5551234\nS,0,128,,\n")?;
    }
    Ok(traffic)
}

#[test]
fn more_than_a_hundred_paths(rt: HostRuntime) -> Result<(), Fail> {
    let traffic = calls(rt.alloc())?;
    let mut source = Counted::new(traffic.as_bytes());
    let mut sink = Counted::new(Vec::new(rt.alloc()));
    let status = run_replay(
        rt.alloc(),
        WIDE_PLAN.as_bytes(),
        &Kinds::default(),
        &mut source,
        &mut sink,
    )?;
    let text = str::from_utf8(sink.get_ref()).unwrap_or("this is no text");
    check_eq!(rt; status, Status::Fine);
    check!(rt; text.ends_with("\nPATHS,120\nCLOSED,480\n"), "{text}");
    // A line for each job, and two for the counts.
    check_eq!(rt; text.lines().count(), 242);
    check_eq!(rt; text.matches(",DIALTONE,").count(), 120);
    check_eq!(rt; text.matches(",CONNECTED,").count(), 120);
    Ok(())
}

/// More records than an office has registers, in more bytes than one read returns.
const RECORDS: u32 = 150;

/// Releases that find no call, so that no path is ever up.
fn records(alloc: Global) -> Result<String, AllocError> {
    let mut text = String::new(alloc);
    for turn in 0..RECORDS {
        write!(text, "{turn},{turn},0,R,3041,-,NOCALL,-,-,-\n")?;
    }
    Ok(text)
}

/// A task on these records, the end of its output, and the number of records that the output
/// shows.
const OF_MANY_RECORDS: &[(Task, &str, usize)] = &[
    (Task::Audit, "AUDIT,LEGAL,150\nPATHS,0\nCLOSED,0\n", 0),
    (Task::Draw(DrawForm::Text), "No path is up.\n", 0),
    (Task::Draw(DrawForm::Svg), "</svg>\n", 0),
    (Task::Draw(DrawForm::Page), "</html>\n", 150),
];

#[test]
fn many_records_are_audited_and_drawn(rt: HostRuntime) -> Result<(), Fail> {
    let input = records(rt.alloc())?;
    for (task, end, shown) in OF_MANY_RECORDS {
        let mut source = Counted::new(input.as_bytes());
        let plan = PlanSource::Text(EXAMPLE.as_bytes());
        let answer = do_task(rt.alloc(), *task, plan, &Kinds::default(), &mut source)?;
        let text = str::from_utf8(&answer.text).unwrap_or("this is no text");
        check_eq!(rt; answer.status, Status::Fine, end);
        check!(rt; text.ends_with(*end), "{end}");
        check_eq!(rt; text.matches(",NOCALL,").count(), *shown, end);
    }
    Ok(())
}
