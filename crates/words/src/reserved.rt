ghost use Rattle.std.specs.Prelude.{◌≡◌};
ghost use Rattle.std.specs.List.{list_any};
ghost use Rattle.std.specs.Str.{bytes_eq as same};
ghost use Rattle.words.specs.Words.{reserved};

// Whether the units spell the word, which is ASCII.
fn spells(units: &[u16], word: &[u8]) -> bool
    ensures { result ≡ same units.now word.now }
{
    units.len() == word.len()
        && units
            .iter()
            .zip(word)
            .all(|(unit, byte)| *unit == u16::from(*byte))
}

// Whether the units spell one of the words.
fn spells_one(units: &[u16], words: &[&[u8]]) -> bool
    ensures { result ≡ list_any (λ word. same units.now word.now) words.now }
{
    words.iter().any(|word| spells(units, word))
}

// Whether the text is a reserved word. By a rule of the project a word is looked for among those with its
// first letter, so a match and no table.
pub fn is_reserved(text: &[u16]) -> bool
    ensures { result ≡ reserved text.now }
{
    let [first, rest @ ..] = text else {
        return false;
    };
    match char::from_u32(*first as u32) {
        Some('a') => spells_one(rest, &[b"wait"]),
        Some('b') => spells_one(rest, &[b"reak"]),
        Some('c') => spells_one(rest, &[b"ase", b"atch", b"lass", b"onst", b"ontinue"]),
        Some('d') => spells_one(rest, &[b"ebugger", b"efault", b"elete", b"o"]),
        Some('e') => spells_one(rest, &[b"lse", b"num", b"xport", b"xtends"]),
        Some('f') => spells_one(rest, &[b"alse", b"inally", b"or", b"unction"]),
        Some('i') => spells_one(rest, &[b"f", b"mport", b"n", b"nstanceof"]),
        Some('n') => spells_one(rest, &[b"ew", b"ull"]),
        Some('r') => spells_one(rest, &[b"eturn"]),
        Some('s') => spells_one(rest, &[b"uper", b"witch"]),
        Some('t') => spells_one(rest, &[b"his", b"hrow", b"rue", b"ry", b"ypeof"]),
        Some('v') => spells_one(rest, &[b"ar", b"oid"]),
        Some('w') => spells_one(rest, &[b"hile", b"ith"]),
        Some('y') => spells_one(rest, &[b"ield"]),
        _ => false,
    }
}
