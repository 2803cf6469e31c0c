ghost use Rattle.forms.specs.Examples.{Examples};

// The worked examples of printing, each proved.
pub fn worked_examples()
    ensures { Examples }
{}
