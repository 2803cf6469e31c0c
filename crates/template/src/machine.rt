// One machine for the recogniser and for cooking: a state matched with the next unit gives the next
// state and what is cooked. A unit is cooked as soon as it is known, though what follows may yet show
// that the text is no raw part.
ghost use Rattle.std.specs.Prelude.{◌≡◌};
ghost use Rattle.template.specs.Raw.{hex_value};
ghost use Rattle.template.specs.declared.machine.Cooked.TheVariants.{Nothing, One};
ghost use Rattle.template.specs.Machine.{to, stepped, may_end, character, escape, grown, code_point, fixed, braced};

#[derive(Clone, Copy, Debug, PartialEq, Eq)]
pub enum State {
    // between two characters
    Start,
    // after `$`, which no `{` may follow
    Dollar,
    Backslash,
    // after `\0`, which no decimal digit may follow
    Zero,
    // after `\u`
    Unicode,
    // in `\x` or `\u` and hex digits: how many come after the next one, and the value so far. `after` is wider
    // than it need be: a fold packs a smaller state into a register and unpacks it at each unit
    Digits { after: usize, value: u32 },
    // after `\u{`
    Open,
    // in `\u{` and hex digits, with the value so far
    Braced(u32),
    // after a leading surrogate, escaped or not
    Lead,
    Bad,
}

// A text of at most two units. An enum, as what writes it matches the three cases; a vector of a fixed capacity
// would be taken apart by its length.
#[derive(Clone, Copy, Debug, PartialEq, Eq)]
pub enum Cooked {
    Nothing,
    One(u16),
    Two(u16, u16),
}

#[derive(Clone, Copy, Debug, PartialEq, Eq)]
pub struct Step {
    pub next: State,
    pub cooked: Cooked,
}

impl Step {
    // A step that cooks nothing.
    fn to(next: State) -> Step
        ensures { result ≡ to next Nothing }
    {
        Step {
            next,
            cooked: Cooked::Nothing,
        }
    }

    fn cooks(unit: u16, next: State) -> Step
        ensures { result ≡ to next (One unit) }
    {
        Step {
            next,
            cooked: Cooked::One(unit),
        }
    }
}

const BAD: Step = Step {
    next: State::Bad,
    cooked: Cooked::Nothing,
};

const DOLLAR: u16 = b'$' as u16;

const BACKSLASH: u16 = b'\\' as u16;

const BACKTICK: u16 = b'`' as u16;

const LEFT_BRACE: u16 = b'{' as u16;

const RIGHT_BRACE: u16 = b'}' as u16;

fn hex_value(unit: u16) -> Option<u32>
    ensures { result ≡ hex_value unit }
{
    // by way of a byte, which takes less time than by way of a code point
    char::from(u8::try_from(unit).ok()?).to_digit(16)
}

// A unit where a character begins.
fn character(unit: u16) -> Step
    ensures { result ≡ character unit }
{
    match unit {
        BACKSLASH => Step::to(State::Backslash),
        DOLLAR => Step::cooks(unit, State::Dollar),
        0xd800..=0xdbff => Step::cooks(unit, State::Lead),
        BACKTICK | 0x0d | 0xdc00..=0xdfff => BAD,
        _ => Step::cooks(unit, State::Start),
    }
}

// The unit after a backslash.
fn escape(unit: u16) -> Step
    ensures { result ≡ escape unit }
{
    match unit {
        // x, u and 0 go on
        0x78 => Step::to(State::Digits { after: 1, value: 0 }),
        0x75 => Step::to(State::Unicode),
        0x30 => Step::cooks(0, State::Zero),
        0xd800..=0xdbff => Step::cooks(unit, State::Lead),
        0x0d | 0x31..=0x39 | 0xdc00..=0xdfff => BAD,
        // a line continuation
        0x0a | 0x2028 | 0x2029 => Step::to(State::Start),
        // b t n v f r
        0x62 => Step::cooks(0x08, State::Start),
        0x74 => Step::cooks(0x09, State::Start),
        0x6e => Step::cooks(0x0a, State::Start),
        0x76 => Step::cooks(0x0b, State::Start),
        0x66 => Step::cooks(0x0c, State::Start),
        0x72 => Step::cooks(0x0d, State::Start),
        // the quotes, the backslash, and whatever is no escape
        _ => Step::cooks(unit, State::Start),
    }
}

// The value with one more hex digit; one that is too large for a code point stays so.
fn with_digit(value: u32, unit: u16) -> Option<u32>
    ensures { result ≡ grown value (hex_value unit) }
{
    let digit = hex_value(unit)?;
    if value > 0x10ffff {
        return Some(value);
    }
    Some(value * 16 + digit)
}

// The end of an escape by number.
fn code_point(value: u32) -> Step
    ensures { result ≡ code_point value }
{
    let cooked = match value {
        0..=0xffff => Cooked::One(value as u16),
        0x10000..=0x10ffff => {
            let above = value - 0x10000;
            Cooked::Two(
                (0xd800 + above / 0x400) as u16,
                (0xdc00 + above % 0x400) as u16,
            )
        }
        _ => return BAD,
    };
    Step {
        next: State::Start,
        cooked,
    }
}

// A digit of an escape with two or four.
fn fixed(after: usize, value: u32, unit: u16) -> Step
    ensures { result ≡ fixed after (grown value (hex_value unit)) }
{
    match with_digit(value, unit) {
        None => BAD,
        Some(value) if after == 0 => code_point(value),
        Some(value) => Step::to(State::Digits {
            after: after - 1,
            value,
        }),
    }
}

// A digit between braces.
fn braced(value: u32, unit: u16) -> Step
    ensures { result ≡ braced (grown value (hex_value unit)) }
{
    match with_digit(value, unit) {
        None => BAD,
        Some(value) => Step::to(State::Braced(value)),
    }
}

// One step of the machine. In a loop over a text the call itself would take as long as the step.
#[inline(always)]
pub(crate) fn advance(state: State, unit: u16) -> Step
    ensures { result ≡ stepped state unit }
{
    match (state, unit) {
        (State::Start, _) => character(unit),
        (State::Dollar, LEFT_BRACE) => BAD,
        (State::Dollar, _) => character(unit),
        (State::Zero, 0x30..=0x39) => BAD,
        (State::Zero, _) => character(unit),
        (State::Backslash, _) => escape(unit),
        (State::Unicode, LEFT_BRACE) => Step::to(State::Open),
        (State::Unicode, _) => fixed(3, 0, unit),
        (State::Digits { after, value }, _) => fixed(after, value, unit),
        (State::Open, _) => braced(0, unit),
        (State::Braced(value), RIGHT_BRACE) => code_point(value),
        (State::Braced(value), _) => braced(value, unit),
        (State::Lead, 0xdc00..=0xdfff) => Step::cooks(unit, State::Start),
        (State::Lead | State::Bad, _) => BAD,
    }
}

// Whether a text that leads to this state may end there.
pub(crate) fn may_end(state: State) -> bool
    ensures { result ≡ may_end state }
{
    matches!(state, State::Start | State::Dollar | State::Zero)
}
