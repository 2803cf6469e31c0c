// Texts as 16-bit units: bare words, and JSON strings.
ghost use Rattle.std.specs.Prelude.{◌≡◌, ◌++◌, IfSome, IfOk, OnOk};
ghost use Rattle.std.specs.Char.Escape.{encode_utf16};
ghost use Rattle.std.specs.Str.Iter.{chars_rest};
ghost use Rattle.script.specs.Units.{Spelt, Hex, HexUnit, short_escape, Escape, Json};

use crate::expected::Expected;
use crate::fault::Fault;
use std::alloc::{AllocError, Global};
use std::str::Chars;

// Adds the units of a character.
fn push_char(units: &mut Vec<u16>, c: char) -> Result<(), AllocError>
    ensures { OnOk result (units.new.items ≡ units.old.items ++ encode_utf16 c) }
{
    let mut buffer = [0; 2];
    match c.encode_utf16(&mut buffer) {
        // most have one, and a push takes less time
        [unit] => Ok(units.push(*unit)?),
        pair => units.extend_from_slice(pair),
    }
}

pub(crate) fn bare(heap: Global, word: &str) -> Result<Vec<u16>, AllocError>
    ensures { IfOk result (λ v. Spelt word.now v.items) }
{
    word.encode_utf16().collect(heap)
}

fn hex_digit(chars: &mut Chars<'_>) -> Option<u16>
    ensures { IfSome result (λ d. Hex (chars_rest chars.old) d (chars_rest chars.new)) }
{
    let digit = chars.next()?.to_digit(16)?;
    Some(digit as u16)
}

fn hex_unit(chars: &mut Chars<'_>) -> Option<u16>
    ensures { IfSome result (λ u. HexUnit (chars_rest chars.old) u (chars_rest chars.new)) }
{
    let first = hex_digit(chars)?;
    let second = hex_digit(chars)?;
    let third = hex_digit(chars)?;
    let fourth = hex_digit(chars)?;
    Some(first * 0x1000 + second * 0x100 + third * 0x10 + fourth)
}

// The unit of an escape of one character after its backslash.
fn short_escape(c: char) -> Option<u16>
    ensures { result ≡ short_escape c }
{
    match c {
        '"' => Some(0x22),
        '\\' => Some(0x5c),
        '/' => Some(0x2f),
        'b' => Some(0x08),
        'f' => Some(0x0c),
        'n' => Some(0x0a),
        'r' => Some(0x0d),
        't' => Some(0x09),
        _ => None,
    }
}

// The unit of an escape, from after its backslash.
fn escape(chars: &mut Chars<'_>) -> Option<u16>
    ensures { IfSome result (λ u. Escape (chars_rest chars.old) u (chars_rest chars.new)) }
{
    match chars.next()? {
        'u' => hex_unit(chars),
        c => short_escape(c),
    }
}

// The units of a JSON string, from after its opening quote to its closing one.
pub(crate) fn quoted(heap: Global, chars: &mut Chars<'_>) -> Result<Vec<u16>, Fault>
    ensures { IfOk result (λ v. Json (chars_rest chars.old) v.items (chars_rest chars.new)) }
{
    let mut units = Vec::new(heap);
    while let Some(c) = chars.next() {
        match c {
            '"' => return Ok(units),
            '\\' => units.push(escape(chars).ok_or(Expected::QuotedText)?)?,
            '\u{0}'..='\u{1f}' => break,
            _ => push_char(&mut units, c)?,
        }
    }
    Err(Fault::Malformed(Expected::QuotedText))
}
