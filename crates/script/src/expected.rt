// What a line that is no call should have had.
ghost use Rattle.std.specs.Prelude.{◌≡◌, Some};
ghost use Rattle.script.specs.Wording.{wording};

use std::fmt;

#[derive(Clone, Copy, Debug, PartialEq, Eq)]
pub enum Expected {
    Verb,
    Integer,
    Node,
    Extent,
    Number,
    Boolean,
    Writer,
    Source,
    NameText,
    QuotedText,
    Separator,
    Class,
    Constant,
    Use,
    Shape,
    UnaryOperator,
    BinaryOperator,
    End,
}

impl Expected {
    pub fn text(self) -> &'static str
        ensures { result.now ≡ wording self }
    {
        match self {
            Expected::Verb => "`open`, `name`, `build`, `root`, `read` or `print`",
            Expected::Integer => "a decimal integer",
            Expected::Node => "a node's number",
            Expected::Extent => "a place, as its start and its length",
            Expected::Number => "a number",
            Expected::Boolean => "`true` or `false`",
            Expected::Writer => "`plain` or `short`",
            Expected::Source => "a JSON string",
            Expected::NameText => "a name",
            Expected::QuotedText => "a valid JSON string",
            Expected::Separator => "a space after the string",
            Expected::Class => "`free`, `bound` or `constant`",
            Expected::Constant => "`number`, `string`, `boolean`, `null` or `undefined`",
            Expected::Use => "`inlined` or `kept`",
            Expected::Shape => "a shape",
            Expected::UnaryOperator => "a unary operator",
            Expected::BinaryOperator => "a binary operator",
            Expected::End => "the end of the line",
        }
    }
}

impl fmt::Display for Expected {
    ghost output = { λ expected. Some (wording expected) };

    fn fmt<W: fmt::Write>(&self, f: &mut fmt::Formatter<W>) -> fmt::Result {
        f.write_str(self.text())
    }
}
