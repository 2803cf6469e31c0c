ghost use Rattle.forms.specs.Printed.{printed};
ghost use Rattle.syntax.specs.Expr.{Expr};
ghost use Rattle.units.specs.Sinks.{Puts};

use crate::view::View;
use forms::numeral::number;
use units::sink::Sink;
use writer::NumberWriter;

impl<W: NumberWriter> View<'_, W> {
    // Puts a number by itself. Where the writer has no text for its magnitude, nothing stands for that.
    pub(crate) fn number(&self, sink: &mut Sink, x: f64)
        ensures { Puts sink.old (printed W.NumberWriter.text (Expr.number x)) sink.new }
    {
        match self.writer.write(x.abs()) {
            Some(text) => number(sink, x, text.as_str().as_bytes()),
            None => number(sink, x, &[]),
        }
    }
}
