// The line of a node to build: its shape, and its operands by number.
ghost use Rattle.std.specs.Prelude.{◌≡◌, IfSome, IfOk};
ghost use Rattle.script.specs.Arity.{Takes};
ghost use Rattle.script.specs.Places.{IsShapeInSource};

use crate::calls::Build;
use crate::expected::Expected;
use crate::fault::Fault;
use crate::fields::Fields;
use nodes::shape::Shape;

// A shape that takes so many operands, and the operands.
fn with_operands(fields: &mut Fields<'_>, shape: Shape, count: usize) -> Result<Build, Fault>
    requires takes { Takes shape count }
    requires places { IsShapeInSource shape }
    ensures { IfOk result (λ build. build.shape ≡ shape) }
{
    let parts = fields.operands(count)?;
    Ok(Build { shape, parts })
}

fn member(fields: &mut Fields<'_>) -> Result<Build, Fault> {
    let parts = fields.operands(1)?;
    let name = fields.place()?;
    let optional = fields.optional();
    let shape = Shape::Member { name, optional };
    Ok(Build { shape, parts })
}

fn index(fields: &mut Fields<'_>) -> Result<Build, Fault> {
    let parts = fields.operands(2)?;
    let optional = fields.optional();
    let shape = Shape::Index { optional };
    Ok(Build { shape, parts })
}

// The callee, perhaps the mark `optional`, and the arguments.
fn invocation(fields: &mut Fields<'_>) -> Result<Build, Fault> {
    let callee = fields.operands(1)?;
    let optional = fields.optional();
    let parts = fields.more_operands(callee)?;
    let shape = Shape::Call { optional };
    Ok(Build { shape, parts })
}

fn sequence(fields: &mut Fields<'_>) -> Result<Build, Fault> {
    let first = fields.operands(2)?;
    let parts = fields.more_operands(first)?;
    let shape = Shape::Sequence;
    Ok(Build { shape, parts })
}

fn template(fields: &mut Fields<'_>) -> Result<Build, Fault> {
    let shape = Shape::Template(fields.place()?);
    let parts = fields.substitutions()?;
    Ok(Build { shape, parts })
}

// A shape that has no operand.
fn leaf(fields: &mut Fields<'_>, name: &str) -> Result<Option<Shape>, Expected>
    ensures { IfOk result (λ found. IfSome found (λ shape. Takes shape 0 × IsShapeInSource shape)) }
{
    let shape = match name {
        "number" => Shape::Number(fields.number()?),
        "string" => Shape::String(fields.place()?),
        "boolean" => Shape::Boolean(fields.boolean()?),
        "null" => Shape::Null,
        "name" => Shape::Name(fields.node()?),
        "array" => Shape::EmptyArray,
        _ => return Ok(None),
    };
    Ok(Some(shape))
}

// The node to build, from after the word `build`. A match, as for the calls.
pub(crate) fn build(fields: &mut Fields<'_>) -> Result<Build, Fault> {
    let name = fields.field(Expected::Shape)?;
    if let Some(shape) = leaf(fields, name)? {
        return with_operands(fields, shape, 0);
    }
    match name {
        "unary" => {
            let operator = fields.parsed(Expected::UnaryOperator)?;
            with_operands(fields, Shape::Unary(operator), 1)
        }
        "binary" => {
            let operator = fields.parsed(Expected::BinaryOperator)?;
            with_operands(fields, Shape::Binary(operator), 2)
        }
        "chain" => with_operands(fields, Shape::Chain, 1),
        "member" => member(fields),
        "index" => index(fields),
        "call" => invocation(fields),
        "sequence" => sequence(fields),
        "template" => template(fields),
        _ => Err(Fault::Malformed(Expected::Shape)),
    }
}
