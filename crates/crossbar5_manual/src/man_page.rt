use crossbar5_command::{ABOUT, AFTER_HELP, CommandOption, NAME, SUBCOMMANDS, Subcommand, VERSION};
use std::fmt;

/// The man page, in roff.
#[derive(Clone, Copy)]
pub struct ManPage;

const WHAT_IT_READS: &str = "\
.SH FILES
Input is read from standard input to its end, on a terminal up to Ctrl\\-D. The
plan of an office is a TOML file; without
.B \\-\\-plan
the office has the example plan. Records go to standard output, and what is
wrong with the input or with a device to standard error, in a sentence.
";

impl fmt::Display for ManPage {
    fn fmt<W: fmt::Write>(&self, f: &mut fmt::Formatter<W>) -> fmt::Result {
        writeln!(
            f,
            ".TH CROSSBAR5 1 \"\" \"{NAME} {VERSION}\" \"User Commands\""
        )?;
        writeln!(
            f,
            ".SH NAME\n{NAME} \\- a simulator of a No. 5 Crossbar telephone office"
        )?;
        f.write_str(".SH SYNOPSIS\n.nf\n")?;
        for subcommand in SUBCOMMANDS {
            writeln!(f, "{}", Roff(subcommand.usage()))?;
        }
        writeln!(f, ".fi\n.SH DESCRIPTION\n{}", Roff(ABOUT))?;
        f.write_str(".SH COMMANDS\n")?;
        for subcommand in SUBCOMMANDS {
            write!(f, "{}", Command(subcommand))?;
        }
        writeln!(
            f,
            "{WHAT_IT_READS}.SH EXIT STATUS\n.nf\n{}\n.fi",
            Roff(AFTER_HELP.trim_start_matches("Exit status:\n"))
        )
    }
}

/// The section on a subcommand: what it does, its options, and an example.
#[derive(Clone, Copy)]
struct Command<'s>(&'s Subcommand);

impl fmt::Display for Command<'_> {
    fn fmt<W: fmt::Write>(&self, f: &mut fmt::Formatter<W>) -> fmt::Result {
        let Command(subcommand) = self;
        let about = Roff(subcommand.about());
        writeln!(f, ".SS {}\n{about}.", subcommand.name())?;
        for option in subcommand.options() {
            write!(f, "{}", Entry(*option))?;
        }
        writeln!(f, ".PP\n.nf\n{}\n.fi", Roff(subcommand.example()))
    }
}

/// The entry of an option.
#[derive(Clone, Copy)]
struct Entry(CommandOption);

impl fmt::Display for Entry {
    fn fmt<W: fmt::Write>(&self, f: &mut fmt::Formatter<W>) -> fmt::Result {
        let option = self.0;
        write!(f, ".TP\n.BR \\-\\-{}", option.name())?;
        if let Some(value) = option.value_name() {
            write!(f, " \" \" {value}")?;
        }
        f.write_str("\n")?;
        for line in option.about().split("{n}") {
            writeln!(f, "{}\n.br", Roff(line))?;
        }
        match option.default_value() {
            Some(value) => writeln!(f, "The default is {value}."),
            None => Ok(()),
        }
    }
}

/// A text in which the special characters of roff are escaped.
#[derive(Clone, Copy)]
struct Roff<'t>(&'t str);

impl fmt::Display for Roff<'_> {
    fn fmt<W: fmt::Write>(&self, f: &mut fmt::Formatter<W>) -> fmt::Result {
        let mut begins_line = true;
        for character in self.0.chars() {
            if begins_line && (character == '.' || character == '\'') {
                f.write_str("\\&")?;
            }
            begins_line = character == '\n';
            match character {
                '\\' => f.write_str("\\e")?,
                '-' => f.write_str("\\-")?,
                '\'' => f.write_str("\\(aq")?,
                _ => write!(f, "{character}")?,
            }
        }
        Ok(())
    }
}
