ghost use Rattle.std.specs.Prelude.{◌<◌, length};
ghost use Rattle.units.specs.Sinks.{Puts};
ghost use Rattle.syntax.specs.Expr.{Expr};
ghost use Rattle.syntax.specs.Operators.{unary_of, binary_of};
ghost use Rattle.nodes.specs.Meaning.{units_of, row_of, nums, exprs_of, parts_of, unary_by, binary_by};
ghost use Rattle.forms.specs.Printed.{printed, printed_at, printed_arguments, printed_further};
ghost use Rattle.printer.specs.Views.{texts_of, expr_in, meaning_in, parts_in, kids_in, InUse};

use crate::row::RowParts;
use crate::shape::shape_of;
use crate::sign::{binary_text, dot, mark, truth, unary_text};
use crate::view::View;
use forms::parens::Place;
use forms::quote::quote;
use nodes::kind::{Kind, Row};
use syntax::operators::{BinaryOperator, UnaryOperator};
use units::sink::Sink;
use units::span::Span;
use writer::NumberWriter;

// The sink stands beside the view: in a struct of the two each clause would name three states of one field. That a
// number is of a node stands in each clause: a type of such numbers would have to hold the view.
impl<W: NumberWriter> View<'_, W> {
    // Puts the text of the node n as it stands at that place, in parentheses or not.
    #[cycle(printing)]
    #[tactic(auto, using(crate::proofs::Reading::parts))]
    pub fn node(&self, sink: &mut Sink, n: u16, place: Place)
        requires { n < length self.now.entries.now }
        ensures { Puts sink.old (printed_at W.NumberWriter.text place (expr_in self.now n)) sink.new }
    {
        let kind = self.entries[n as usize].kind;
        if place.parenthesises(shape_of(kind)) {
            sink.byte(b'(');
            self.bare(sink, kind);
            sink.byte(b')');
        } else {
            self.bare(sink, kind);
        }
    }

    // Puts the text of a node of this kind by itself.
    #[cycle(printing)]
    fn bare(&self, sink: &mut Sink, kind: Kind)
        requires { InUse self.now (kids_in self.now kind) }
        ensures { Puts sink.old (printed W.NumberWriter.text (meaning_in self.now kind)) sink.new }
    {
        match kind {
            Kind::Null => sink.bytes(b"null"),
            Kind::Number(x) => self.number(sink, x),
            Kind::String(text) => quote(sink, self.texts.part(text)),
            Kind::Boolean(b) => sink.bytes(truth(b)),
            Kind::Name(i) => sink.units(self.names.text(i as usize)),
            Kind::EmptyArray => sink.bytes(b"[]"),
            Kind::Unary(o, a) => self.unary(sink, o, a),
            Kind::Binary(o, a, b) => self.binary(sink, o, a, b),
            Kind::Template { head, parts } => self.template(sink, head, parts),
            Kind::Member {
                object,
                name,
                optional,
            } => self.member(sink, object, name, optional),
            Kind::Index {
                object,
                key,
                optional,
            } => self.index(sink, object, key, optional),
            Kind::Call {
                callee,
                arguments,
                optional,
            } => self.call(sink, callee, arguments, optional),
            Kind::Chain(a) => self.node(sink, a, Place::Operand),
            Kind::Sequence { first, rest } => {
                self.node(sink, first, Place::Operand);
                self.further(sink, self.parts(rest), Place::Operand);
            }
        }
    }

    // Apart from `binary`, as their texts are in `sign.rt`. No tree holds an operator without a text.
    #[cycle(printing)]
    fn unary(&self, sink: &mut Sink, operator: UnaryOperator, operand: u16)
        requires { operand < length self.now.entries.now }
        ensures { Puts sink.old (printed W.NumberWriter.text (unary_by (unary_of operator) (expr_in self.now operand))) sink.new }
    {
        match unary_text(operator) {
            Some(text) => {
                sink.bytes(text);
                self.node(sink, operand, Place::Operand);
            }
            None => sink.bytes(b"null"),
        }
    }

    #[cycle(printing)]
    fn binary(&self, sink: &mut Sink, operator: BinaryOperator, left: u16, right: u16)
        requires left { left < length self.now.entries.now }
        requires right { right < length self.now.entries.now }
        ensures { Puts sink.old (printed W.NumberWriter.text (binary_by (binary_of operator) (expr_in self.now left) (expr_in self.now right))) sink.new }
    {
        match binary_text(operator) {
            Some(text) => {
                self.node(sink, left, Place::Operand);
                sink.bytes(text);
                self.node(sink, right, Place::Operand);
            }
            None => sink.bytes(b"null"),
        }
    }

    #[cycle(printing)]
    fn member(&self, sink: &mut Sink, object: u16, name: Span, optional: bool)
        requires { object < length self.now.entries.now }
        ensures { Puts sink.old (printed W.NumberWriter.text (Expr.member optional (expr_in self.now object) (units_of (texts_of self.now) name))) sink.new }
    {
        self.node(sink, object, Place::Object);
        sink.bytes(dot(optional));
        sink.units(self.texts.part(name));
    }

    #[cycle(printing)]
    fn index(&self, sink: &mut Sink, object: u16, key: u16, optional: bool)
        requires object { object < length self.now.entries.now }
        requires key { key < length self.now.entries.now }
        ensures { Puts sink.old (printed W.NumberWriter.text (Expr.index optional (expr_in self.now object) (expr_in self.now key))) sink.new }
    {
        self.node(sink, object, Place::Object);
        sink.bytes(mark(optional));
        sink.byte(b'[');
        self.node(sink, key, Place::Bare);
        sink.byte(b']');
    }

    #[cycle(printing)]
    fn call(&self, sink: &mut Sink, callee: u16, arguments: Row, optional: bool)
        requires callee { callee < length self.now.entries.now }
        requires arguments { InUse self.now (parts_in self.now arguments) }
        ensures { Puts sink.old (printed W.NumberWriter.text (Expr.call optional (expr_in self.now callee) (exprs_of (expr_in self.now) (parts_in self.now arguments)))) sink.new }
    {
        self.node(sink, callee, Place::Operand);
        sink.bytes(mark(optional));
        sink.byte(b'(');
        self.arguments(sink, self.parts(arguments));
        sink.byte(b')');
    }

    // Puts the arguments of a call, with commas between them.
    #[cycle(printing)]
    fn arguments(&self, sink: &mut Sink, mut parts: RowParts<'_>)
        requires { InUse self.now (nums parts) }
        ensures { Puts sink.old (printed_arguments W.NumberWriter.text (exprs_of (expr_in self.now) (nums parts.entry))) sink.new }
    {
        if let Some((first, _)) = parts.next() {
            self.node(sink, first, Place::Argument);
            self.further(sink, parts, Place::Argument);
        }
    }

    // Puts each of the parts with a comma before it.
    #[cycle(printing)]
    fn further(&self, sink: &mut Sink, parts: RowParts<'_>, place: Place)
        requires { InUse self.now (nums parts) }
        ensures { Puts sink.old (printed_further W.NumberWriter.text place (exprs_of (expr_in self.now) (nums parts.entry))) sink.new }
    {
        for (part, _) in parts {
            sink.byte(b',');
            self.node(sink, part, place);
        }
    }

    #[cycle(printing)]
    fn template(&self, sink: &mut Sink, head: Span, parts: Row)
        requires { InUse self.now (parts_in self.now parts) }
        ensures { Puts sink.old (printed W.NumberWriter.text (Expr.template (units_of (texts_of self.now) head) (parts_of (texts_of self.now) (expr_in self.now) (row_of self.now.entries.now parts)))) sink.new }
    {
        sink.byte(b'`');
        sink.units(self.texts.part(head));
        for (part, after) in self.parts(parts) {
            sink.bytes(b"${");
            self.node(sink, part, Place::Bare);
            sink.byte(b'}');
            sink.units(self.texts.part(after));
        }
        sink.byte(b'`');
    }
}
