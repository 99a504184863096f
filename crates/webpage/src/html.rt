// Bytes as HTML shows them. Any byte has its own look: what is no text is shown as its two hexadecimal digits.
ghost use Rattle.std.specs.Prelude.{◌<◌, ◌≤◌, ◌-◌, max, length};

use showing::characters::width;
use showing::system::System;
use showing::text::say;

// The head of the file: how it looks on a screen and, in black and white, on paper.
pub fn begin(system: &System, name: &[u8]) {
    say(
        system,
        b"<!doctype html>\n<html lang=\"en\">\n<head>\n<meta charset=\"utf-8\">\n<title>",
    );
    say_text(system, name);
    say(
        system,
        b"</title>
<style>
@page { size: A4; margin: 15mm }
body { font: 15px/1.45 Georgia, serif; max-width: 60em; margin: 2em auto; padding: 0 1em; color: #111; background: #fff }
h1 { font-size: 1.3em } h2 { font-size: 1.1em; margin-top: 2em; break-after: avoid }
table { border-collapse: collapse }
tr { break-inside: avoid }
pre { margin: 0; font: 13px/1.7 monospace; white-space: pre-wrap; overflow-wrap: anywhere; tab-size: 8; unicode-bidi: bidi-override }
.page { width: 100%; border: 1px solid #888 }
.page td { vertical-align: top; padding: 0 .5em; height: 22px }
.page .n, .page .v { font: 12px/22px monospace; text-align: right; width: 2.2em; color: #666 }
.page .v { color: #000; font-weight: bold }
.page .r { position: relative; white-space: nowrap; padding: 0 3px; width: 1px }
.r i { display: inline-block; width: 7px }
.r i::before { content: \"\"; position: absolute; top: 0; bottom: 0; border-left: 2px solid #555 }
.k2 { background: #f3efe6 } .k3 { background: #e3eee3 }
.w { font-weight: bold } .o { color: #666; font-style: italic }
a { color: #00449e; text-decoration: none; border-bottom: 1px dotted }
a[href^=\"#e\"] { color: #6b3d00 }
b { border-bottom: 2px solid #00449e }
sub { font: bold 10px/0 sans-serif; color: #a00; vertical-align: -.4em; margin-left: 1px }
sub::before { content: attr(data-n) }
.page .n, .page .v, .page .r { user-select: none }
.x { font-size: 80%; border: 1px solid #888; padding: 0 2px; margin: 0 1px }
mark { background: #ffd2d2; color: #000; outline: 2px solid #a00 }
:target { background: #ffe680 }
.list td, .list th { border: 1px solid #888; padding: .15em .6em; text-align: left; font-size: 13.5px; vertical-align: top }
.text { font-size: 12px; line-height: 1.4 }
@media print { body { margin: 0; max-width: none; padding: 0 } a, a[href^=\"#e\"], sub, .o, .page td { color: #000 } b, mark { border-color: #000; outline-color: #000 } }
</style>
</head>
<body>
",
    );
}

pub fn end(system: &System) {
    say(system, b"</body>\n</html>\n");
}

fn digit(d: u8) -> u8
    requires { d < 16 }
{
    if d < 10 { d + 48 } else { d + 55 }
}

// A byte that is no text.
fn say_hex(system: &System, b: u8) {
    let row = [digit(b / 16), digit(b % 16)];
    say(system, b"<span class=\"x\">");
    say(system, &row);
    say(system, b"</span>");
}

fn say_byte(system: &System, b: u8) {
    match b {
        b'&' => say(system, b"&amp;"),
        b'<' => say(system, b"&lt;"),
        b'>' => say(system, b"&gt;"),
        b'"' => say(system, b"&quot;"),
        b'\'' => say(system, b"&#39;"),
        13 => say(system, b"&#13;"),
        9 | 32..=126 => {
            let row = [b];
            say(system, &row);
        }
        _ => say_hex(system, b),
    }
}

// What stands at a place; gives how many bytes that are.
pub fn say_at(system: &System, text: &[u8], at: usize) -> usize
    ensures { (0 < result) × (result ≤ max 1 (length text.now - at)) }
{
    if text.len() <= at {
        return 1;
    }
    let n = width(text, at).min(text.len() - at);
    if 1 < n {
        say(system, &text[at..at + n]);
    } else {
        say_byte(system, text[at]);
    }
    n
}

// A text.
pub fn say_text(system: &System, text: &[u8]) {
    let mut at: usize = 0;
    // Kept: no plainer, the place moves on by the character that was shown.
    while at < text.len() {
        at += say_at(system, text, at);
    }
}
