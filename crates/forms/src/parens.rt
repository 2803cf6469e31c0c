ghost use Rattle.std.specs.Prelude.{◌≡◌};
ghost use Rattle.forms.specs.Parens.{in_parens};

// Where an expression can stand. The whole text, an index's key and a template's substitution are bare;
// an object is that of a member or an index; all other parts are operands.
#[derive(Clone, Copy, Debug, PartialEq, Eq)]
pub enum Place {
    Bare,
    Argument,
    Operand,
    Object,
}

// How closely an expression's text holds together. Closed are strings, booleans, null, names, `[]`,
// templates, members, indices and calls. Numerals stand apart, since `1.x` is no member.
#[derive(Clone, Copy, Debug, PartialEq, Eq)]
pub enum Shape {
    Numeral,
    Closed,
    Loose,
    Sequence,
}

impl Place {
    // Whether an expression of this shape is parenthesised here.
    pub fn parenthesises(self, shape: Shape) -> bool
        ensures { result ≡ in_parens self shape }
    {
        match self {
            Place::Bare => false,
            Place::Argument => matches!(shape, Shape::Sequence),
            Place::Operand => matches!(shape, Shape::Loose | Shape::Sequence),
            Place::Object => !matches!(shape, Shape::Closed),
        }
    }
}
