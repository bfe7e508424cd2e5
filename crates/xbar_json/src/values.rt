//! What is written without other parts: numbers, lines, links, connectors, trouble cards.

use crate::json::Json;
use std::alloc::AllocError;
use xbar_equip::{Conn, Len, Link};
use xbar_office::Card;

impl Json for u8 {
    ghost use Rattle.std.specs.Prelude.{decimal};

    ghost json = { decimal };

    fn add_json(&self, text: &mut String) -> Result<(), AllocError> {
        write!(text, "{self}")
    }
}

impl Json for Len {
    ghost use Rattle.xbar_equip.specs.Len.{line_text};
    ghost use Rattle.xbar_json.specs.Json.{quoted};

    ghost json = { λ line. quoted (line_text line) };

    fn add_json(&self, text: &mut String) -> Result<(), AllocError> {
        write!(text, "\"{self}\"")
    }
}

impl Json for Link {
    ghost use Rattle.xbar_equip.specs.Link.{link_text};
    ghost use Rattle.xbar_json.specs.Json.{quoted};

    ghost json = { λ link. quoted (link_text link) };

    fn add_json(&self, text: &mut String) -> Result<(), AllocError> {
        write!(text, "\"{self}\"")
    }
}

impl Json for Conn {
    ghost use Rattle.xbar_json.specs.Office.{conn_object};

    ghost json = { conn_object };

    #[tactic(auto, unfolding(crate::specs::Office::conn_object))]
    fn add_json(&self, text: &mut String) -> Result<(), AllocError> {
        match self {
            Conn::Llf(frame) => { write!(text, r#"{{"kind":"line link frame","number":{frame}}}"#) }
            Conn::Tlf(frame) => {
                write!(text, r#"{{"kind":"trunk link frame","number":{frame}}}"#)
            }
            Conn::Group(group) => write!(text, r#"{{"kind":"group","number":{group}}}"#),
        }
    }
}

impl Json for Card {
    ghost use Rattle.xbar_json.specs.Office.{card_object};

    ghost json = { card_object };

    #[tactic(auto, unfolding(crate::specs::Office::card_object))]
    fn add_json(&self, text: &mut String) -> Result<(), AllocError> {
        let Card { trial, link } = self;
        write!(text, r#"{{"trial":{trial},"link":"{link}"}}"#)
    }
}
