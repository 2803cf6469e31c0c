// The fields of a row: words, and texts in hexadecimal.
ghost use Rattle.std.specs.Prelude.{◌≡◌, ◌⊎◌, [], IfOk, codes};
ghost use Rattle.std.specs.List.{flat_map};
ghost use Rattle.replay.specs.Hex.{hex};

use crate::fault::Fault;
use crate::hex::numbers;
use std::alloc::Global;

// The fields of a row, none of them empty.
pub(crate) fn fields(heap: Global, row: &str) -> Result<Vec<&str>, Fault> {
    let fields: Vec<&str> = row.split(' ').collect(heap)?;
    if fields.contains(&"") {
        return Err(Fault::Malformed);
    }
    Ok(fields)
}

// The text of a field: its units, or `-` for none.
pub(crate) fn text(heap: Global, field: &str) -> Result<Vec<u16>, Fault>
    ensures { IfOk result (λ v. ((field.now ≡ codes "-") × (v.items ≡ [])) ⊎ (flat_map (hex 4) v.items ≡ field.now)) }
{
    if field == "-" {
        return Ok(Vec::new(heap));
    }
    numbers(heap, field)
}

// The units of a word, which is ASCII.
pub(crate) fn word(heap: Global, field: &str) -> Result<Vec<u16>, Fault>
    ensures { IfOk result (λ v. v.items ≡ field.now) }
{
    if !field.is_ascii() {
        return Err(Fault::Malformed);
    }
    Ok(field.bytes().map(u16::from).collect(heap)?)
}
