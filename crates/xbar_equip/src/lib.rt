//! The equipment of a No. 5 Crossbar office: its numbers and their texts, paths, and the numbers
//! of the shared words.
#![tactic(auto)]

pub use channel::Channel;
pub use conn::Conn;
pub use crosspoint::Crosspoint;
pub use dialled::Dialled;
pub use dir_no::DirNo;
pub use fault::EquipFault;
pub use len::Len;
pub use link::{Link, LinkKind};
pub use path::Path;
pub use ten::Ten;
pub use word::{
    WORD_COUNT, WordNo, conn_number, conn_word, group_word, line_junctor, line_switch, protects,
    trunk_junctor, trunk_switch, turn_word, words_under,
};

mod ascii;
mod channel;
mod conn;
mod crosspoint;
mod dialled;
mod digits;
mod dir_no;
mod fault;
pub mod laws;
mod len;
mod link;
mod path;
mod ten;
mod word;
