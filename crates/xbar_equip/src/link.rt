ghost use Rattle.std.specs.Prelude.{◌≡◌, ◌<◌, ℕ, MatchResult, IfOk, Some, None, Ok};
ghost use Rattle.std.specs.Fmt.{styled_text};
ghost use Rattle.std.specs.Str.{IsAscii};
ghost use Rattle.xbar_equip.specs.Link.{Link as TheLink, IsLink, link_text, link_fault, letters};

use crate::ascii::pad_ascii;
use crate::digits::digit_value;
use crate::fault::EquipFault;
use std::fmt;
use std::marker::Model;

/// The kind of a link. A path has one link of each kind.
#[derive(Clone, Copy, Debug, PartialEq, Eq)]
pub enum LinkKind {
    /// From a line switch to a line junctor switch of the same frame.
    LineLink,
    /// From a line link frame to a trunk link frame.
    Junctor,
    /// From a trunk junctor switch to a trunk switch of the same frame.
    TrunkLink,
}

/// A link, which at most one path uses at a time. There are 1,000 of each kind, and a plan may
/// list a link as out of order.
///
/// Its text has two letters for the kind, `LL`, `JU` or `TL`, and three digits, as in `JU340`.
#[derive(Clone, Copy, Debug, PartialEq, Eq)]
pub struct Link {
    kind: LinkKind,
    frame: u8,
    at: u8,
    channel: u8,
}

impl Model for Link {
    ghost use Rattle.xbar_equip.specs.Link.{Link as TheLink, IsLink};

    ghost Value = { TheLink };

    ghost view = { λ a. record { kind = a.kind; frame = a.frame; at = a.at; channel = a.channel } };

    ghost invariant = { λ a. IsLink (record {
      kind = a.kind;
      frame = a.frame;
      at = a.at;
      channel = a.channel;
    }) };

    ghost inverse = { λ link. record {
      kind = link.kind;
      frame = link.frame;
      at = link.at;
      channel = link.channel;
    } };
}

impl Link {
    /// The link of this kind with these numbers, each 0 to 9. A line link or trunk link has a
    /// frame, a switch and a channel; a junctor has a line link frame, a trunk link frame and a
    /// channel.
    pub fn new(kind: LinkKind, frame: u8, at: u8, channel: u8) -> Self
        requires frame { frame < 10 }
        requires at { at < 10 }
        requires channel { channel < 10 }
        ensures { result ≡ record { kind = kind; frame = frame; at = at; channel = channel } }
    {
        Link {
            kind,
            frame,
            at,
            channel,
        }
    }

    /// Parses two letters and three digits, for example `JU340`.
    pub fn parse(text: &[u8]) -> Result<Self, EquipFault>
        ensures reads { (link : TheLink) → IsLink link → text.now ≡ link_text link →
            result ≡ Ok link }
        ensures only { IfOk result (λ link. IsLink link × (text.now ≡ link_text link)) }
        ensures fault { MatchResult result (λ _. link_fault text.now ≡ None)
            (λ fault. link_fault text.now ≡ Some fault) }
    {
        let &[first, second, frame, at, channel] = text else {
            return Err(EquipFault::Length);
        };
        let kind = match (first, second) {
            (b'L', b'L') => LinkKind::LineLink,
            (b'J', b'U') => LinkKind::Junctor,
            (b'T', b'L') => LinkKind::TrunkLink,
            _ => return Err(EquipFault::NotDigit),
        };
        Ok(Link {
            kind,
            frame: digit_value(frame)?,
            at: digit_value(at)?,
            channel: digit_value(channel)?,
        })
    }

    /// The two letters and three digits in ASCII.
    pub fn text(self) -> [u8; 5]
        ensures text { result ≡ link_text self }
        ensures ascii { IsAscii result }
    {
        let [first, second] = match self.kind {
            LinkKind::LineLink => *b"LL",
            LinkKind::Junctor => *b"JU",
            LinkKind::TrunkLink => *b"TL",
        };
        [
            first,
            second,
            b'0' + self.frame,
            b'0' + self.at,
            b'0' + self.channel,
        ]
    }

    /// The kind of the link.
    pub fn kind(self) -> LinkKind
        ensures { result ≡ self.kind }
    {
        self.kind
    }

    /// The frame that the link is on, 0 to 9. For a junctor, the line link frame.
    pub fn frame(self) -> u8
        ensures value { result ≡ self.frame }
        ensures range { IsLink self }
    {
        self.frame
    }

    /// The switch on that frame, 0 to 9. For a junctor, the trunk link frame.
    pub fn at(self) -> u8
        ensures value { result ≡ self.at }
        ensures range { IsLink self }
    {
        self.at
    }

    /// The channel, 0 to 9, which numbers the ten links there.
    pub fn channel(self) -> u8
        ensures value { result ≡ self.channel }
        ensures range { IsLink self }
    {
        self.channel
    }
}

impl fmt::Display for Link {
    ghost output = { λ link. Some (link_text link) };

    ghost styled_output = { λ link spec. Some (styled_text spec (link_text link)) };

    fn fmt<W: fmt::Write>(&self, f: &mut fmt::Formatter<W>) -> fmt::Result {
        pad_ascii(f, &self.text())
    }
}
