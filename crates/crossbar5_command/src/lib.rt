//! The command line of the program `crossbar5`: what its words ask for, or why they are refused.
#![tactic(auto)]

pub use command_fault::CommandFault;
pub use command_line::{Ask, Work, command};
pub use options::CommandOption;
pub use program::{ABOUT, AFTER_HELP, NAME, VERSION};
pub use subcommands::{SUBCOMMANDS, Subcommand, words_of};

mod command_fault;
mod command_line;
mod options;
mod program;
mod subcommands;
