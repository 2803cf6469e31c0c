ghost use Rattle.std.specs.Prelude.{◌≡◌, ◌-◌, ◌^◌, ◌<◌, min, length};
ghost use Rattle.printer.specs.Fitted.{Fitted};
ghost use Rattle.forms.specs.Printed.{printed};
ghost use Rattle.printer.specs.Views.{expr_in};

use crate::view::View;
use forms::parens::Place;
use units::sink::Sink;
use writer::NumberWriter;

impl<W: NumberWriter> View<'_, W> {
    // How many bytes the text of the node n has; the count stays at `usize::MAX`.
    fn text_len(&self, n: u16) -> usize
        requires { n < length self.now.entries.now }
        ensures { result ≡ min (length (printed W.NumberWriter.text (expr_in self.now n))) (2 ^ 64 - 1) }
    {
        let mut nothing: [u8; 0] = [];
        let mut counter = Sink::over(&mut nothing);
        self.node(&mut counter, n, Place::Bare);
        counter.len()
    }

    // Puts the whole text of the node n at the front of `out`, and tells its length; None, and `out` as it
    // was, where that is shorter.
    pub fn print(&self, n: u16, out: &mut [u8]) -> Option<usize>
        requires { n < length self.now.entries.now }
        ensures { Fitted (printed W.NumberWriter.text (expr_in self.now n)) out.old result out.new }
    {
        let len = self.text_len(n);
        if len > out.len() {
            return None;
        }
        let mut sink = Sink::over(out);
        self.node(&mut sink, n, Place::Bare);
        Some(len)
    }
}
