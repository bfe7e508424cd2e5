use crate::lines::SubcommandNames;
use crossbar5_command::{SUBCOMMANDS, Subcommand};
use std::fmt;

/// The completions for bash.
#[derive(Clone, Copy)]
pub struct BashCompletions;

const BEFORE_NAMES: &str = "\
# Completions of crossbar5 for bash: source this file.

_crossbar5() {
    local word=${COMP_WORDS[COMP_CWORD]}
    COMPREPLY=()
    if ((COMP_CWORD == 1)); then
        mapfile -t COMPREPLY < <(compgen -W '";

const AFTER_NAMES: &str = "help --help --version' -- \"$word\")
        return
    fi
    case ${COMP_WORDS[COMP_CWORD - 1]} in
        --plan)
            mapfile -t COMPREPLY < <(compgen -f -- \"$word\")
            return
            ;;
        --markers | --dial | --completing) return ;;
    esac
    case ${COMP_WORDS[1]} in
";

const END: &str = "    esac
}

complete -o filenames -F _crossbar5 crossbar5
";

impl fmt::Display for BashCompletions {
    fn fmt<W: fmt::Write>(&self, f: &mut fmt::Formatter<W>) -> fmt::Result {
        write!(f, "{BEFORE_NAMES}{SubcommandNames}{AFTER_NAMES}")?;
        for subcommand in SUBCOMMANDS {
            write!(f, "{}", Options(subcommand))?;
        }
        f.write_str(END)
    }
}

/// The case branch of one subcommand, with its options.
#[derive(Clone, Copy)]
struct Options<'s>(&'s Subcommand);

impl fmt::Display for Options<'_> {
    fn fmt<W: fmt::Write>(&self, f: &mut fmt::Formatter<W>) -> fmt::Result {
        let name = self.0.name();
        write!(f, "        {name}) mapfile -t COMPREPLY < <(compgen -W '")?;
        for option in self.0.options() {
            write!(f, "--{} ", option.name())?;
        }
        f.write_str("--help' -- \"$word\") ;;\n")
    }
}
