ghost use Rattle.std.specs.Prelude.{◌≡◌, IfSome, Some, codes};
ghost use Rattle.syntax.specs.Operators.{unary_of, binary_of, un_text, bin_text};
ghost use Rattle.syntax.specs.Written.{UnaryWord, BinaryWord, Reads};

use std::error::Error;
use std::fmt;
use std::str::FromStr;

// oxc's operators. `Delete` is there so that it can be refused by name.
#[derive(Clone, Copy, Debug, PartialEq, Eq)]
pub enum UnaryOperator {
    UnaryNegation,
    UnaryPlus,
    LogicalNot,
    BitwiseNot,
    Typeof,
    Void,
    Delete,
}

// `In` and `Instanceof` are there so that they can be refused by name. The two families share no trait:
// each has its own tables, and nothing is generic over operators. From a text is a table too, since a search
// over the texts would be no shorter and would say less.
#[derive(Clone, Copy, Debug, PartialEq, Eq)]
pub enum BinaryOperator {
    Equality,
    Inequality,
    StrictEquality,
    StrictInequality,
    LessThan,
    LessEqualThan,
    GreaterThan,
    GreaterEqualThan,
    Addition,
    Subtraction,
    Multiplication,
    Division,
    Remainder,
    Exponential,
    ShiftLeft,
    ShiftRight,
    ShiftRightZeroFill,
    BitwiseOR,
    BitwiseXOR,
    BitwiseAnd,
    In,
    Instanceof,
}

// A word that writes no operator. Its text by hand, since what `fmt` writes is part of its contract.
#[derive(Clone, Copy, Debug, PartialEq, Eq)]
pub struct NoOperator;

impl fmt::Display for NoOperator {
    ghost output = { λ _. Some (codes "no operator") };

    fn fmt<W: fmt::Write>(&self, f: &mut fmt::Formatter<W>) -> fmt::Result {
        f.write_str("no operator")
    }
}

impl Error for NoOperator {}

impl UnaryOperator {
    // The operator as it is written.
    pub fn text(self) -> &'static [u8]
        ensures { IfSome (unary_of self) (λ o. result.now ≡ un_text o) }
    {
        match self {
            UnaryOperator::UnaryNegation => b"-",
            UnaryOperator::UnaryPlus => b"+",
            UnaryOperator::LogicalNot => b"!",
            UnaryOperator::BitwiseNot => b"~",
            UnaryOperator::Typeof => b"typeof",
            UnaryOperator::Void => b"void",
            UnaryOperator::Delete => b"delete",
        }
    }
}

impl BinaryOperator {
    // The operator as it is written.
    pub fn text(self) -> &'static [u8]
        ensures { IfSome (binary_of self) (λ o. result.now ≡ bin_text o) }
    {
        match self {
            BinaryOperator::Equality => b"==",
            BinaryOperator::Inequality => b"!=",
            BinaryOperator::StrictEquality => b"===",
            BinaryOperator::StrictInequality => b"!==",
            BinaryOperator::LessThan => b"<",
            BinaryOperator::LessEqualThan => b"<=",
            BinaryOperator::GreaterThan => b">",
            BinaryOperator::GreaterEqualThan => b">=",
            BinaryOperator::Addition => b"+",
            BinaryOperator::Subtraction => b"-",
            BinaryOperator::Multiplication => b"*",
            BinaryOperator::Division => b"/",
            BinaryOperator::Remainder => b"%",
            BinaryOperator::Exponential => b"**",
            BinaryOperator::ShiftLeft => b"<<",
            BinaryOperator::ShiftRight => b">>",
            BinaryOperator::ShiftRightZeroFill => b">>>",
            BinaryOperator::BitwiseOR => b"|",
            BinaryOperator::BitwiseXOR => b"^",
            BinaryOperator::BitwiseAnd => b"&",
            BinaryOperator::In => b"in",
            BinaryOperator::Instanceof => b"instanceof",
        }
    }
}

impl FromStr for UnaryOperator {
    type Err = NoOperator;

    ghost from_str_gives = { Reads UnaryWord };

    fn from_str(word: &str) -> Result<UnaryOperator, NoOperator> {
        match word {
            "-" => Ok(UnaryOperator::UnaryNegation),
            "+" => Ok(UnaryOperator::UnaryPlus),
            "!" => Ok(UnaryOperator::LogicalNot),
            "~" => Ok(UnaryOperator::BitwiseNot),
            "typeof" => Ok(UnaryOperator::Typeof),
            "void" => Ok(UnaryOperator::Void),
            "delete" => Ok(UnaryOperator::Delete),
            _ => Err(NoOperator),
        }
    }
}

impl FromStr for BinaryOperator {
    type Err = NoOperator;

    ghost from_str_gives = { Reads BinaryWord };

    fn from_str(word: &str) -> Result<BinaryOperator, NoOperator> {
        match word {
            "==" => Ok(BinaryOperator::Equality),
            "!=" => Ok(BinaryOperator::Inequality),
            "===" => Ok(BinaryOperator::StrictEquality),
            "!==" => Ok(BinaryOperator::StrictInequality),
            "<" => Ok(BinaryOperator::LessThan),
            "<=" => Ok(BinaryOperator::LessEqualThan),
            ">" => Ok(BinaryOperator::GreaterThan),
            ">=" => Ok(BinaryOperator::GreaterEqualThan),
            "+" => Ok(BinaryOperator::Addition),
            "-" => Ok(BinaryOperator::Subtraction),
            "*" => Ok(BinaryOperator::Multiplication),
            "/" => Ok(BinaryOperator::Division),
            "%" => Ok(BinaryOperator::Remainder),
            "**" => Ok(BinaryOperator::Exponential),
            "<<" => Ok(BinaryOperator::ShiftLeft),
            ">>" => Ok(BinaryOperator::ShiftRight),
            ">>>" => Ok(BinaryOperator::ShiftRightZeroFill),
            "|" => Ok(BinaryOperator::BitwiseOR),
            "^" => Ok(BinaryOperator::BitwiseXOR),
            "&" => Ok(BinaryOperator::BitwiseAnd),
            "in" => Ok(BinaryOperator::In),
            "instanceof" => Ok(BinaryOperator::Instanceof),
            _ => Err(NoOperator),
        }
    }
}
