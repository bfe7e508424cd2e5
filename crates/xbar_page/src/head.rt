//! The beginning of the page: its style sheets and its controls.

ghost use Rattle.std.specs.Prelude.{◌≡◌, ◌++◌, OnOk, string_bytes};
ghost use Rattle.xbar_page.specs.Page.{head_text};

use std::alloc::AllocError;
use xbar_office_drawing::style;

/// What comes before the style sheets.
const HEAD: &str = "\
<!DOCTYPE html>\n\
<html lang=\"en\" xmlns=\"http://www.w3.org/1999/xhtml\">\n\
<head>\n\
<meta charset=\"utf-8\"/>\n\
<meta name=\"viewport\" content=\"width=device-width, initial-scale=1\"/>\n\
<title>A No. 5 Crossbar office, turn by turn</title>\n\
<style>";

/// The style sheet of the page, besides that of its pictures. It shows the section and the paths
/// that the script marks.
const STYLE: &str = "\
*{box-sizing:border-box}body{margin:0;background:#f6f0e2;color:#2b2620;\
font:16px/1.45 Georgia,'DejaVu Serif',serif}svg{display:block;max-width:100%;\
height:auto}header{padding:10px 20px 8px;border-bottom:1px solid #c9bda3}\
h1{font-size:21px;margin:0 0 6px}h2{font-size:19px;margin:0 0 8px}a{color:#1f4e79}\
button,select,nav a{font:inherit;color:#2b2620;background:#fbf8ef;\
border:1px solid #8c7d63;border-radius:4px;padding:4px 12px;cursor:pointer}\
nav a{text-decoration:none;color:#1f4e79}button[aria-pressed=true]{background:#1f4e79;\
color:#fff}:focus-visible{outline:3px solid #1f4e79;outline-offset:2px}\
#controls{display:flex;flex-wrap:wrap;gap:8px;align-items:center}\
#controls[hidden]{display:none}#at{flex:1 1 240px;min-width:120px;accent-color:#1f4e79}\
#told{min-width:96px}main{display:grid;grid-template-columns:minmax(0,1fr);gap:16px;\
padding:14px 20px}section,section nav{display:none}section{scroll-margin-top:100vh}\
#status{position:absolute;width:1px;height:1px;overflow:hidden;clip-path:inset(50%)}\
.now{display:block}ul{margin:0 0 8px;padding-left:20px}pre{margin:8px 0;font-size:13px;\
white-space:pre-wrap;overflow-wrap:anywhere;color:#5d523f}.trouble{list-style:none;\
margin-left:-20px;padding:4px 10px;background:#f3e3bf;border-left:4px solid #b35309}\
summary{cursor:pointer;color:#1f4e79}.card-face,.switches{margin:8px 0;width:100%;\
max-width:480px}#frames{overflow-x:auto}#frames svg{min-width:960px;width:100%}\
#turns{margin:8px 0 0;padding:0;list-style:none;max-height:300px;overflow-y:auto;\
border-top:1px solid #c9bda3}#turns a{display:block;padding:2px 6px;\
text-decoration:none}#turns li{content-visibility:auto;contain-intrinsic-size:auto 27px}\
#turns a[aria-current]{background:#1f4e79;color:#fff}[data-from]{display:none}\
.stands{display:inline}.stands path{opacity:.62}.stands text{opacity:.85;font-size:16px}\
.new path,.new text{opacity:1}.new .call{stroke-width:4}.new .call.edge{stroke-width:9}\
.new .register{stroke-width:3}.new .register.edge{stroke-width:7.5}.new circle.call,\
.new circle.register{stroke-width:1.6}.new text{font-size:20px;font-weight:bold}\
@media(min-width:1100px){main{grid-template-columns:330px minmax(0,1fr)}\
#told{min-width:120px}#aside{max-height:calc(100vh - 112px);overflow-y:auto;\
padding-right:6px}#frames svg{min-width:0;max-height:calc(100vh - 112px)}}\
@media(min-width:1500px){main{grid-template-columns:390px minmax(0,1fr)}}\
@media(max-width:600px){body{font-size:17px}button,select{padding:9px 14px}header,\
main{padding-left:12px;padding-right:12px}#turns a{padding:8px 6px}}\
@media(prefers-reduced-motion:no-preference){.new path{animation:lit .5s ease-out}\
@keyframes lit{from{opacity:0}}}";

/// The style sheet for browsers that run no script: the section that the address names, or the last
/// one if it names none, and the paths that stand after the last turn.
const PLAIN_STYLE: &str = "\
section:target,section:last-of-type,[data-from]{display:block}\
section:target~section:last-of-type,[data-until]{display:none}section nav{display:flex;\
gap:8px;margin-bottom:8px}";

/// The controls, which the script shows, and the beginning of the sections.
const CONTROLS: &str = "\
</style></noscript>\n\
</head>\n\
<body>\n\
<header>\n\
<h1>A No. 5 Crossbar office, turn by turn</h1>\n\
<div id=\"controls\" role=\"group\" aria-label=\"Turns\" hidden=\"hidden\">\n\
<button id=\"first\" type=\"button\">start</button>\n\
<button id=\"before\" type=\"button\">&#8592; before</button>\n\
<button id=\"play\" type=\"button\" aria-pressed=\"false\">play</button>\n\
<button id=\"after\" type=\"button\">after &#8594;</button>\n\
<button id=\"final\" type=\"button\">last</button>\n\
<input id=\"at\" type=\"range\" min=\"0\" max=\"0\" value=\"0\" \
aria-label=\"Turn\"/>\n\
<output id=\"told\" for=\"at\">start</output>\n\
<label>one turn in <select id=\"speed\"><option value=\"0.5\">half a \
second</option><option value=\"1\">1 second</option><option value=\"3\" \
selected=\"selected\">3 seconds</option><option value=\"8\">8 \
seconds</option></select></label>\n\
</div>\n\
<p id=\"status\" role=\"status\"></p>\n\
</header>\n\
<main>\n\
<div id=\"aside\">\n";

/// Adds the beginning of the page, up to its first section.
#[tactic(auto, unfolding(crate::specs::Page::head_text))]
pub fn add_head(text: &mut String) -> Result<(), AllocError>
    ensures { OnOk result (string_bytes text.new ≡ string_bytes text.old ++ head_text) }
{
    text.push_str(HEAD)?;
    text.push_str(style())?;
    text.push_str(STYLE)?;
    text.push_str("</style>\n<noscript><style>")?;
    text.push_str(PLAIN_STYLE)?;
    text.push_str(CONTROLS)?;
    Ok(())
}
