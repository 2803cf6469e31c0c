// A text of 16-bit units as a JSON string.
use std::alloc::{AllocError, Global};
use units::code_point::code_points;

// The last hexadecimal digit of n.
fn hex_digit(n: u32) -> char {
    char::from_digit(n % 16, 16).unwrap()
}

// Digit by digit: the library's `{unit:04x}` takes more than twice the time.
fn push_escape(text: &mut String, unit: u32) -> Result<(), AllocError> {
    text.push_str("\\u")?;
    text.push(hex_digit(unit / 0x1000))?;
    text.push(hex_digit(unit / 0x100))?;
    text.push(hex_digit(unit / 0x10))?;
    text.push(hex_digit(unit))
}

fn push_point(text: &mut String, point: u32) -> Result<(), AllocError> {
    match char::from_u32(point) {
        Some('"') => text.push_str("\\\""),
        Some('\\') => text.push_str("\\\\"),
        Some(c) if point >= 32 => text.push(c),
        _ => push_escape(text, point),
    }
}

pub(crate) fn json(heap: Global, units: &[u16]) -> Result<String, AllocError> {
    let mut text = String::from_str(heap, "\"")?;
    for point in code_points(units) {
        push_point(&mut text, point)?;
    }
    text.push_str("\"")?;
    Ok(text)
}
