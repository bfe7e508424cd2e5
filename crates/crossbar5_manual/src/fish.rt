use crate::lines::first_line;
use crossbar5_command::{CommandOption, SUBCOMMANDS, Subcommand};
use std::fmt;

/// The completions for fish.
#[derive(Clone, Copy)]
pub struct FishCompletions;

const START: &str = "\
# Completions of crossbar5 for fish: put this file into a folder of $fish_complete_path.
complete -c crossbar5 -f
complete -c crossbar5 -n __fish_use_subcommand -l version -d 'Print version'
complete -c crossbar5 -l help -d 'Print help'
";

impl fmt::Display for FishCompletions {
    fn fmt<W: fmt::Write>(&self, f: &mut fmt::Formatter<W>) -> fmt::Result {
        f.write_str(START)?;
        for subcommand in SUBCOMMANDS {
            write!(f, "{}", Command(subcommand))?;
        }
        Ok(())
    }
}

/// The lines of one subcommand: its own, and one for each of its options.
#[derive(Clone, Copy)]
struct Command<'s>(&'s Subcommand);

impl fmt::Display for Command<'_> {
    fn fmt<W: fmt::Write>(&self, f: &mut fmt::Formatter<W>) -> fmt::Result {
        let (name, about) = (self.0.name(), Quoted(self.0.about()));
        writeln!(
            f,
            "complete -c crossbar5 -n __fish_use_subcommand -a {name} -d '{about}'"
        )?;
        for option in self.0.options() {
            write!(
                f,
                "complete -c crossbar5 -n '__fish_seen_subcommand_from {name}'"
            )?;
            writeln!(f, "{}", Flag(*option))?;
        }
        Ok(())
    }
}

/// The arguments of `complete` for an option.
#[derive(Clone, Copy)]
struct Flag(CommandOption);

impl fmt::Display for Flag {
    fn fmt<W: fmt::Write>(&self, f: &mut fmt::Formatter<W>) -> fmt::Result {
        let option = self.0;
        write!(f, " -l {}", option.name())?;
        match (option, option.value_name()) {
            (CommandOption::Plan, _) => f.write_str(" -r -F")?,
            (_, Some(_)) => f.write_str(" -x")?,
            (_, None) => {}
        }
        write!(f, " -d '{}'", Quoted(first_line(option.about())))
    }
}

/// A text between single quotes.
#[derive(Clone, Copy)]
struct Quoted<'t>(&'t str);

impl fmt::Display for Quoted<'_> {
    fn fmt<W: fmt::Write>(&self, f: &mut fmt::Formatter<W>) -> fmt::Result {
        for character in self.0.chars() {
            match character {
                '\'' | '\\' => write!(f, "\\{character}")?,
                _ => write!(f, "{character}")?,
            }
        }
        Ok(())
    }
}
