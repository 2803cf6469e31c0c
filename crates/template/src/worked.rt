ghost use Rattle.template.specs.Worked.{Worked};

// Examples of raw parts and of texts that are none, each proved.
pub fn worked_examples()
    ensures { Worked }
{}
