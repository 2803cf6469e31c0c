// What was read of a line, as text.
use names::table::{Class, Value};
use nodes::shape::{Part, Shape};
use script::calls::{Call, WriterName};
use script::fault::Fault;
use script::lines::parse;
use std::alloc::{AllocError, Global};
use std::fmt;
use units::span::Span;

// A value as the table shows it.
#[derive(Drop)]
struct Shown<T>(T);

impl fmt::Display for Shown<Span> {
    fn fmt<W: fmt::Write>(&self, f: &mut fmt::Formatter<W>) -> fmt::Result {
        let span = self.0;
        write!(f, "{}+{}", span.start, span.len)
    }
}

impl fmt::Display for Shown<Value> {
    fn fmt<W: fmt::Write>(&self, f: &mut fmt::Formatter<W>) -> fmt::Result {
        match self.0 {
            Value::Number(x) => write!(f, "number {x:?}"),
            Value::String(span) => write!(f, "string {}", Shown(span)),
            Value::Boolean(b) => write!(f, "boolean {b}"),
            Value::Null => write!(f, "null"),
            Value::Undefined => write!(f, "undefined"),
        }
    }
}

impl fmt::Display for Shown<Class> {
    fn fmt<W: fmt::Write>(&self, f: &mut fmt::Formatter<W>) -> fmt::Result {
        match self.0 {
            Class::Free => write!(f, "free"),
            Class::Bound => write!(f, "bound"),
            Class::Constant { value, inlined } => write!(f, "constant {} {inlined}", Shown(value)),
        }
    }
}

impl fmt::Display for Shown<Shape> {
    fn fmt<W: fmt::Write>(&self, f: &mut fmt::Formatter<W>) -> fmt::Result {
        match self.0 {
            Shape::Number(x) => write!(f, "number {x:?}"),
            Shape::String(span) => write!(f, "string {}", Shown(span)),
            Shape::Boolean(b) => write!(f, "boolean {b}"),
            Shape::Null => write!(f, "null"),
            Shape::Name(index) => write!(f, "name {index}"),
            Shape::EmptyArray => write!(f, "array"),
            Shape::Unary(operator) => write!(f, "unary {:?}", operator.text()),
            Shape::Binary(operator) => write!(f, "binary {:?}", operator.text()),
            Shape::Template(head) => write!(f, "template {}", Shown(head)),
            Shape::Member { name, optional } => write!(f, "member {} {optional}", Shown(name)),
            Shape::Index { optional } => write!(f, "index {optional}"),
            Shape::Call { optional } => write!(f, "call {optional}"),
            Shape::Chain => write!(f, "chain"),
            Shape::Sequence => write!(f, "sequence"),
        }
    }
}

impl fmt::Display for Shown<&[Part]> {
    fn fmt<W: fmt::Write>(&self, f: &mut fmt::Formatter<W>) -> fmt::Result {
        for part in self.0 {
            write!(f, " {}:{}", part.node, Shown(part.after))?;
        }
        Ok(())
    }
}

impl fmt::Display for Shown<WriterName> {
    fn fmt<W: fmt::Write>(&self, f: &mut fmt::Formatter<W>) -> fmt::Result {
        match self.0 {
            WriterName::Plain => write!(f, "plain"),
            WriterName::Short => write!(f, "short"),
        }
    }
}

impl fmt::Display for Shown<&Call> {
    fn fmt<W: fmt::Write>(&self, f: &mut fmt::Formatter<W>) -> fmt::Result {
        match self.0 {
            Call::Open {
                entries,
                folded,
                writer,
                source,
            } => write!(f, "open {entries} {folded} {} {source:?}", Shown(*writer)),
            Call::Name { text, class } => write!(f, "name {text:?} {}", Shown(*class)),
            Call::Build(build) => {
                let parts = build.parts.as_slice();
                write!(f, "build {}{}", Shown(build.shape), Shown(parts))
            }
            Call::Root(node) => write!(f, "root {node}"),
            Call::Read(node) => write!(f, "read {node}"),
            Call::Print(capacity) => write!(f, "print {capacity}"),
        }
    }
}

pub(crate) fn line_text(heap: Global, line: &str) -> Result<String, AllocError> {
    match parse(heap, line) {
        Ok(None) => format!(in heap; "blank"),
        Ok(Some(call)) => format!(in heap; "{}", Shown(&call)),
        Err(Fault::Malformed(expected)) => format!(in heap; "bad: {expected}"),
        Err(Fault::NoMemory) => Err(AllocError),
    }
}
