use crate::lines::first_line;
use crossbar5_command::{CommandOption, SUBCOMMANDS, Subcommand};
use std::fmt;

/// The completions for zsh.
#[derive(Clone, Copy)]
pub struct ZshCompletions;

const START: &str = "\
#compdef crossbar5
# Completions of crossbar5 for zsh: put this file into a folder of $fpath.

_crossbar5() {
    local -a commands
    commands=(
";

const AFTER_COMMANDS: &str = "    )
    if ((CURRENT == 2)); then
        _describe command commands
        return
    fi
    case $words[2] in
";

const END: &str = "    esac
}

_crossbar5 \"$@\"
";

impl fmt::Display for ZshCompletions {
    fn fmt<W: fmt::Write>(&self, f: &mut fmt::Formatter<W>) -> fmt::Result {
        f.write_str(START)?;
        for subcommand in SUBCOMMANDS {
            let (name, about) = (subcommand.name(), subcommand.about());
            writeln!(f, "        '{name}:{about}'")?;
        }
        f.write_str(AFTER_COMMANDS)?;
        for subcommand in SUBCOMMANDS {
            write!(f, "{}", Options(subcommand))?;
        }
        f.write_str(END)
    }
}

/// The case branch of one subcommand, with its options.
#[derive(Clone, Copy)]
struct Options<'s>(&'s Subcommand);

impl fmt::Display for Options<'_> {
    fn fmt<W: fmt::Write>(&self, f: &mut fmt::Formatter<W>) -> fmt::Result {
        writeln!(f, "        {})\n            _arguments \\", self.0.name())?;
        for option in self.0.options() {
            write!(f, "{}", Specification(*option))?;
        }
        f.write_str("                '--help[Print help]'\n            ;;\n")
    }
}

/// The specification of an option for `_arguments`.
#[derive(Clone, Copy)]
struct Specification(CommandOption);

impl fmt::Display for Specification {
    fn fmt<W: fmt::Write>(&self, f: &mut fmt::Formatter<W>) -> fmt::Result {
        let option = self.0;
        let about = Quoted(first_line(option.about()));
        write!(f, "                '--{}[{about}]", option.name())?;
        match (option, option.value_name()) {
            (CommandOption::Plan, Some(value)) => write!(f, ":{value}:_files")?,
            (_, Some(value)) => write!(f, ":{value}:")?,
            (_, None) => {}
        }
        f.write_str("' \\\n")
    }
}

/// A text inside the brackets of a specification in single quotes.
#[derive(Clone, Copy)]
struct Quoted<'t>(&'t str);

impl fmt::Display for Quoted<'_> {
    fn fmt<W: fmt::Write>(&self, f: &mut fmt::Formatter<W>) -> fmt::Result {
        for character in self.0.chars() {
            match character {
                '\'' => f.write_str("'\\''")?,
                '[' => f.write_str("\\[")?,
                ']' => f.write_str("\\]")?,
                _ => write!(f, "{character}")?,
            }
        }
        Ok(())
    }
}
