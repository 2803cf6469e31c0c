// A line of a script: a call, nothing, or neither. Words are matched where they are read: an impl with an error type
// for each set of words would be longer than the arms.
ghost use Rattle.std.specs.Prelude.{◌≡◌, IfOk, codes};
ghost use Rattle.script.specs.Calls.{Says};
ghost use Rattle.script.specs.Lines.{Reads};
ghost use Rattle.script.specs.Places.{IsValueInSource, IsClassInSource};

use crate::builds::build;
use crate::calls::{Call, WriterName};
use crate::expected::Expected;
use crate::fault::Fault;
use crate::fields::Fields;
use names::table::{Class, Value};
use std::alloc::Global;

fn open_call(fields: &mut Fields<'_>) -> Result<Call, Fault>
    ensures { IfOk result (Says (codes "open") fields.old.rest.now) }
{
    let entries = fields.integer()?;
    let folded = fields.integer()?;
    let writer = match fields.word() {
        Some("plain") => WriterName::Plain,
        Some("short") => WriterName::Short,
        _ => return Err(Fault::Malformed(Expected::Writer)),
    };
    let source = fields.string()?.ok_or(Expected::Source)?;
    Ok(Call::Open {
        entries,
        folded,
        writer,
        source,
    })
}

fn constant(fields: &mut Fields<'_>) -> Result<Value, Expected>
    ensures { IfOk result IsValueInSource }
{
    match fields.word() {
        Some("number") => Ok(Value::Number(fields.number()?)),
        Some("string") => Ok(Value::String(fields.place()?)),
        Some("boolean") => Ok(Value::Boolean(fields.boolean()?)),
        Some("null") => Ok(Value::Null),
        Some("undefined") => Ok(Value::Undefined),
        _ => Err(Expected::Constant),
    }
}

fn class(fields: &mut Fields<'_>) -> Result<Class, Expected>
    ensures { IfOk result IsClassInSource }
{
    match fields.word() {
        Some("free") => return Ok(Class::Free),
        Some("bound") => return Ok(Class::Bound),
        Some("constant") => {}
        _ => return Err(Expected::Class),
    }
    let value = constant(fields)?;
    let inlined = match fields.word() {
        Some("inlined") => true,
        Some("kept") => false,
        _ => return Err(Expected::Use),
    };
    Ok(Class::Constant { value, inlined })
}

fn name_call(fields: &mut Fields<'_>) -> Result<Call, Fault>
    ensures { IfOk result (Says (codes "name") fields.old.rest.now) }
{
    let text = fields.text()?;
    let class = class(fields)?;
    Ok(Call::Name { text, class })
}

// The call that begins with this word. A match: a table of functions would be no shorter than the arms.
fn call_from(verb: &str, fields: &mut Fields<'_>) -> Result<Call, Fault>
    ensures { IfOk result (Says verb.now fields.old.rest.now) }
{
    match verb {
        "open" => open_call(fields),
        "name" => name_call(fields),
        "build" => Ok(Call::Build(build(fields)?)),
        "root" => Ok(Call::Root(fields.node()?)),
        "read" => Ok(Call::Read(fields.node()?)),
        "print" => Ok(Call::Print(fields.integer()?)),
        _ => Err(Fault::Malformed(Expected::Verb)),
    }
}

// A call, and nothing after it.
fn whole_call(verb: &str, fields: &mut Fields<'_>) -> Result<Call, Fault>
    ensures { IfOk result (Says verb.now fields.old.rest.now) }
{
    let call = call_from(verb, fields)?;
    match fields.word() {
        Some(_) => Err(Fault::Malformed(Expected::End)),
        None => Ok(call),
    }
}

// The call that a line says; none where the line is blank.
pub fn parse(heap: Global, line: &str) -> Result<Option<Call>, Fault>
    ensures { Reads line.now result }
{
    let mut fields = Fields::new(heap, line);
    let Some(verb) = fields.word() else {
        return Ok(None);
    };
    let call = whole_call(verb, &mut fields)?;
    Ok(Some(call))
}
