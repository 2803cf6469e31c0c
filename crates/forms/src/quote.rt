ghost use Rattle.std.specs.Prelude.{◌≡◌, ◌<◌};
ghost use Rattle.std.proofs.Math.Utf8.{encodes};
ghost use Rattle.std.specs.Char.{digit_char};
ghost use Rattle.units.specs.Sinks.{Puts};
ghost use Rattle.forms.specs.Quoted.{escape, hex_escape, quoted};

use units::code_point::code_points;
use units::sink::Sink;

// Puts the string literal of a text: between double quotes, with escapes.
pub fn quote(sink: &mut Sink, text: &[u16])
    ensures { Puts sink.old (encodes (quoted text.now)) sink.new }
{
    sink.byte(b'"');
    for point in code_points(text) {
        escape(sink, point);
    }
    sink.byte(b'"');
}

// Puts one code point of a literal. A surrogate comes here only where it is alone, and has no UTF-8.
fn escape(sink: &mut Sink, c: u32)
    requires { c < 0x110000 }
    ensures { Puts sink.old (encodes (escape c)) sink.new }
{
    match c {
        0x22 => sink.bytes(b"\\\""),
        0x5C => sink.bytes(b"\\\\"),
        0x0A => sink.bytes(b"\\n"),
        0x0D => sink.bytes(b"\\r"),
        0xD800..=0xDFFF => hex_escape(sink, c),
        _ => sink.code_point(c),
    }
}

// Digit by digit, since a sink takes bytes and the library's `{c:04x}` writes to a `fmt::Write`.
fn hex_escape(sink: &mut Sink, c: u32)
    requires { c < 0x10000 }
    ensures { Puts sink.old (hex_escape c) sink.new }
{
    sink.bytes(b"\\u");
    sink.bytes(&[
        hex_digit(c / 0x1000),
        hex_digit(c / 0x100 % 0x10),
        hex_digit(c / 0x10 % 0x10),
        hex_digit(c % 0x10),
    ]);
}

fn hex_digit(d: u32) -> u8
    requires { d < 0x10 }
    ensures { result ≡ digit_char d }
{
    char::from_digit(d, 16).unwrap() as u8
}
