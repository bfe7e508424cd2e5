//! Shapes, texts and whole drawings, as SVG.

use std::alloc::Global;
use std::process::Abort;
use std::test::Fail;
use svg::{
    Bend, Point, Shape, add_drawing, add_escaped, add_group, add_group_end, add_named_group,
    add_shape,
};
use test_tools::check_eq;

const SHAPES: &[Shape<'static>] = &[
    Shape::Rectangle(Point(110, 46), 330, 356, "frame"),
    Shape::Line(Point(200, 104), Point(350, 0), "idle"),
    Shape::Circle(Point(233, 450), 4, "point"),
    Shape::Text(Point(65535, 64), "small middle", "R&D <1>"),
    Shape::Text(Point(4, 5), "b", ""),
    Shape::Trail(
        Point(1, 2),
        &[
            Bend::To(Point(30, 2)),
            Bend::Curve(Point(40, 2), Point(40, 65535), Point(50, 9)),
        ],
        "call edge",
    ),
    Shape::Trail(Point(7, 0), &[], "c"),
    Shape::Copy(Point(210, 62), "a\"b"),
];

const DRAWING: &str =
    r##"<!-- --><svg xmlns="http://www.w3.org/2000/svg" viewBox="0 0 960 640" width="960" height="640">
<style>.a&gt;.b{fill:none}</style>
<rect x="110" y="46" width="330" height="356" class="frame"/>
<line x1="200" y1="104" x2="350" y2="0" class="idle"/>
<circle cx="233" cy="450" r="4" class="point"/>
<text x="65535" y="64" class="small middle">R&amp;D &lt;1&gt;</text>
<text x="4" y="5" class="b"></text>
<path d="M1 2L30 2C40 2 40 65535 50 9" class="call edge"/>
<path d="M7 0" class="c"/>
<use href="#a&quot;b" x="210" y="62"/>
</svg>
"##;

#[test]
fn a_drawing_is_whole(rt: HostRuntime) -> Result<(), Fail> {
    let mut text = String::from_str(rt.alloc(), "<!-- -->")?;
    add_drawing(&mut text, 960, 640, ".a>.b{fill:none}", SHAPES)?;
    check_eq!(rt; text.as_str(), DRAWING);
    Ok(())
}

const ESCAPED: &[(&str, &str)] = &[
    ("\"a\" & <b>", "&quot;a&quot; &amp; &lt;b&gt;"),
    ("Zürich, 電話 \u{1F4DE}'", "Zürich, 電話 \u{1F4DE}'"),
    (
        "\0a\n\u{FFFE}\u{FFFF}\u{FFFD}",
        "\u{FFFD}a\u{FFFD}\u{FFFD}\u{FFFD}\u{FFFD}",
    ),
];

fn check_escaped(rt: &impl Abort, alloc: Global, content: &str, wanted: &str) {
    let mut text = String::new(alloc);
    add_escaped(&mut text, content).expect(rt, "there is memory for a text");
    check_eq!(rt; text.as_str(), wanted);
}

#[test]
fn texts_are_escaped(rt: HostRuntime) {
    for (content, wanted) in ESCAPED {
        check_escaped(&rt, rt.alloc(), content, wanted);
    }
}

const GROUP: &str = r#"<g transform="translate(560 18446744073709551616)">
<circle cx="1" cy="2" r="3" class="a"/>
</g>
<g id="r&amp;d">
</g>
"#;

#[test]
fn groups_are_moved_and_named(rt: HostRuntime) -> Result<(), Fail> {
    let mut text = String::new(rt.alloc());
    add_group(&mut text, 560, 18446744073709551616)?;
    add_shape(&mut text, &Shape::Circle(Point(1, 2), 3, "a"))?;
    add_group_end(&mut text)?;
    add_named_group(&mut text, "r&d")?;
    add_group_end(&mut text)?;
    check_eq!(rt; text.as_str(), GROUP);
    Ok(())
}
