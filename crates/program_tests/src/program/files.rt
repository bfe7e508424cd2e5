//! Plans in real files, with the system's reason if one can't be read. A folder can be opened, but
//! not read. One empty word is here too, which no row can have.

use super::*;
use std::test::Fail;
use test_tools::check_eq;

/// Command lines, with the status and what is written on standard error.
const LINES: &[(&str, u8, &str)] = &[
    (
        "replay --plan missing.toml",
        6,
        "FAULT,DEVICE\ncrossbar5: cannot read the plan missing.toml: No such file or directory (os error 2)\n",
    ),
    (
        "audit --plan /",
        6,
        "FAULT,DEVICE\ncrossbar5: cannot read the plan /: Is a directory (os error 21)\n",
    ),
    (
        "live --plan /",
        6,
        "FAULT,DEVICE\ncrossbar5: cannot read the plan /: Is a directory (os error 21)\n",
    ),
    (
        "walk --plan /dev/null",
        3,
        "crossbar5: /dev/null: version: expected 1 or 2, found nothing (P2)\n",
    ),
    (
        "",
        2,
        "error: unrecognized subcommand ''\n\n\
Usage: crossbar5 [COMMAND]\n       crossbar5 replay [--plan <FILE>] [--markers <KINDS>]\n       \
crossbar5 walk [--plan <FILE>] [--markers <KINDS>] [--short | --json]\n       \
crossbar5 look [--plan <FILE>] [--markers <KINDS>] [--words | --json | --svg]\n       \
crossbar5 live [--plan <FILE>] [--dial <N>] [--completing <N>]\n       \
crossbar5 audit [--plan <FILE>]\n       crossbar5 draw [--plan <FILE>] [--text]\n       \
crossbar5 page [--plan <FILE>]\n\nFor more information, try '--help'.\n",
    ),
];

#[test]
fn plans_are_read_from_files(rt: HostRuntime) -> Result<(), Fail> {
    for (line, status, said) in LINES {
        let mut streams = Streams::new(rt.alloc(), "", Fails::Nothing);
        let exit = streams.run(&rt, rt.alloc(), &RealFiles { rt: &rt }, line)?;
        check_eq!(rt; (exit.status(), streams.said()), (*status, *said), line);
    }
    Ok(())
}
