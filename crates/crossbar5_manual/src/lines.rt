//! Texts of several lines.

use std::fmt;

/// The first line of an option's help, without a colon or semicolon at its end.
pub fn first_line(about: &str) -> &str {
    match about.split_once("{n}") {
        Some((first, _)) => first.trim_end_matches(':').trim_end_matches(';'),
        None => about,
    }
}

/// The names of all subcommands, with a space after each.
#[derive(Clone, Copy)]
pub struct SubcommandNames;

impl fmt::Display for SubcommandNames {
    fn fmt<W: fmt::Write>(&self, f: &mut fmt::Formatter<W>) -> fmt::Result {
        for subcommand in crossbar5_command::SUBCOMMANDS {
            write!(f, "{} ", subcommand.name())?;
        }
        Ok(())
    }
}
