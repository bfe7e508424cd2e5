//! The names of connectors, lines, links and trunk places, as a walk prints them.

ghost use Rattle.std.specs.Prelude.{Some};
ghost use Rattle.xbar_step_text.specs.Places.{conn_name, line_name, link_name, trunk_name};

use std::fmt;
use xbar_equip::{Conn, Len, Link, LinkKind, Ten};

/// A connector, named by the frame or group that it locks.
#[derive(Clone, Copy)]
pub struct ConnName(pub Conn);

impl fmt::Display for ConnName {
    ghost output = { λ name. Some (conn_name name.0) };

    #[tactic(auto, unfolding(crate::specs::Places::conn_name))]
    fn fmt<W: fmt::Write>(&self, f: &mut fmt::Formatter<W>) -> fmt::Result {
        match self.0 {
            Conn::Llf(frame) => write!(f, "line link frame {frame}"),
            Conn::Tlf(frame) => write!(f, "trunk link frame {frame}"),
            Conn::Group(group) => write!(f, "group {group}"),
        }
    }
}

/// The line at this frame, line switch and place; `no line` if a number is out of range.
#[derive(Clone, Copy)]
pub struct LineName(pub u8, pub u8, pub u8);

impl fmt::Display for LineName {
    ghost output = { λ name. Some (line_name name.0 name.1 name.2) };

    #[tactic(auto, unfolding(crate::specs::Places::line_name))]
    fn fmt<W: fmt::Write>(&self, f: &mut fmt::Formatter<W>) -> fmt::Result {
        let LineName(frame, switch, x) = *self;
        if frame < 10 && switch < 10 && x < 30 {
            let line = Len::new(frame, switch, x);
            write!(f, "line {line}")
        } else {
            f.write_str("no line")
        }
    }
}

/// The link of this kind and these digits, in the order of its text; `no link` if one is above 9.
#[derive(Clone, Copy)]
pub struct LinkName(pub LinkKind, pub u8, pub u8, pub u8);

impl fmt::Display for LinkName {
    ghost output = { λ name. Some (link_name name.0 name.1 name.2 name.3) };

    #[tactic(auto, unfolding(crate::specs::Places::link_name))]
    fn fmt<W: fmt::Write>(&self, f: &mut fmt::Formatter<W>) -> fmt::Result {
        let LinkName(kind, frame, at, channel) = *self;
        if frame < 10 && at < 10 && channel < 10 {
            let link = Link::new(kind, frame, at, channel);
            write!(f, "{link}")
        } else {
            f.write_str("no link")
        }
    }
}

/// The trunk place with this frame, trunk switch and appearance; `no place` if one is above 9.
#[derive(Clone, Copy)]
pub struct TrunkName(pub u8, pub u8, pub u8);

impl fmt::Display for TrunkName {
    ghost output = { λ name. Some (trunk_name name.0 name.1 name.2) };

    #[tactic(auto, unfolding(crate::specs::Places::trunk_name))]
    fn fmt<W: fmt::Write>(&self, f: &mut fmt::Formatter<W>) -> fmt::Result {
        let TrunkName(frame, switch, appearance) = *self;
        if frame < 10 && switch < 10 && appearance < 10 {
            let place = Ten::new(frame, switch, appearance);
            write!(f, "place {place}")
        } else {
            f.write_str("no place")
        }
    }
}
