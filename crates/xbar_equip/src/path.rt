ghost use Rattle.std.specs.Prelude.{◌≡◌, Some};
ghost use Rattle.std.specs.Fmt.{styled_text};
ghost use Rattle.std.specs.Str.{IsAscii};

use crate::ascii::pad_ascii;
use crate::channel::Channel;
use crate::crosspoint::Crosspoint;
use crate::len::Len;
use crate::link::{Link, LinkKind};
use crate::ten::Ten;
use crate::word::{line_junctor, line_switch, trunk_junctor, trunk_switch};
use std::fmt;

/// A path through the office: from a line, by a line link, a junctor and a trunk link of one
/// channel, to a trunk place.
///
/// Its text is `LEN-n-TEN`, for example `3041-0-417`.
#[derive(Clone, Copy, Debug, PartialEq, Eq, PartialOrd, Ord)]
pub struct Path {
    /// The line that the path begins at.
    pub line: Len,
    /// The channel that its three links share.
    pub channel: Channel,
    /// The trunk place that the path ends at, that of a trunk or of a register.
    pub place: Ten,
}

impl Path {
    ghost use Rattle.xbar_equip.specs.Path.{IsPath, line_link as line_link_of, junctor as junctor_of, trunk_link as trunk_link_of, path_text};
    ghost use Rattle.xbar_equip.specs.Crosspoint.{crosspoints as crosspoints_of};

    /// The line link, from the line's switch to the line junctor switch of the channel.
    pub fn line_link(&self) -> Link
        ensures { result ≡ line_link_of self.now }
    {
        Link::new(
            LinkKind::LineLink,
            self.line.frame(),
            self.line.switch(),
            self.channel.number(),
        )
    }

    /// The junctor, from the line link frame to the trunk link frame.
    pub fn junctor(&self) -> Link
        ensures { result ≡ junctor_of self.now }
    {
        Link::new(
            LinkKind::Junctor,
            self.line.frame(),
            self.place.frame(),
            self.channel.number(),
        )
    }

    /// The trunk link, from the trunk junctor switch of the channel to the place's switch.
    pub fn trunk_link(&self) -> Link
        ensures { result ≡ trunk_link_of self.now }
    {
        Link::new(
            LinkKind::TrunkLink,
            self.place.frame(),
            self.place.switch(),
            self.channel.number(),
        )
    }

    /// The four crosspoints, in the order in which they are closed and opened: on the line switch,
    /// the line junctor switch, the trunk junctor switch and the trunk switch.
    pub fn crosspoints(&self) -> [Crosspoint; 4]
        ensures crosspoints { result ≡ crosspoints_of self.now }
        ensures range { IsPath self.now }
    {
        let channel = self.channel.number();
        let line_frame = self.line.frame();
        let trunk_frame = self.place.frame();
        [
            Crosspoint {
                word: line_switch(line_frame, self.line.switch()),
                field: channel,
                value: 1 + self.line.x(),
            },
            Crosspoint {
                word: line_junctor(line_frame, channel),
                field: trunk_frame,
                value: 1 + self.line.switch(),
            },
            Crosspoint {
                word: trunk_junctor(trunk_frame, channel),
                field: line_frame,
                value: 1 + self.place.switch(),
            },
            Crosspoint {
                word: trunk_switch(trunk_frame, self.place.switch()),
                field: channel,
                value: 1 + self.place.appearance(),
            },
        ]
    }

    /// The texts of line, channel and place, joined by dashes, for example `3041-0-417`.
    pub fn text(&self) -> [u8; 10]
        ensures text { result ≡ path_text self.now }
        ensures ascii { IsAscii result }
    {
        let [frame, switch, group, file] = self.line.text();
        let [channel] = self.channel.text();
        let [trunk_frame, trunk_switch, appearance] = self.place.text();
        [
            frame,
            switch,
            group,
            file,
            b'-',
            channel,
            b'-',
            trunk_frame,
            trunk_switch,
            appearance,
        ]
    }
}

impl fmt::Display for Path {
    ghost use Rattle.std.specs.Prelude.{Some};
    ghost use Rattle.std.specs.Fmt.{styled_text};
    ghost use Rattle.xbar_equip.specs.Path.{path_text};

    ghost output = { λ path. Some (path_text path) };

    ghost styled_output = { λ path spec. Some (styled_text spec (path_text path)) };

    fn fmt<W: fmt::Write>(&self, f: &mut fmt::Formatter<W>) -> fmt::Result {
        pad_ascii(f, &self.text())
    }
}
