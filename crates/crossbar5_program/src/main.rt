//! The program `crossbar5`.
#![tactic(auto)]

use std::process::ExitCode;

/// The kit and the commit that the program was built with: the last line of `--version`.
/// `bin/build` writes them here.
const BUILD: &str = "kit and commit not recorded";

fn main(rt: HostRuntime) -> ExitCode {
    crossbar5_cli::run(&rt, &rt, BUILD)
}
