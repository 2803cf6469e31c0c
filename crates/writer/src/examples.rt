ghost use Rattle.std.specs.Prelude.{◌≡◌};
ghost use Rattle.writer.specs.Examples.{Worked, EveryInteger};

// Six numbers that have a text and five that have none, and what each writer makes of them. Gives
// their count.
pub fn worked_examples() -> u8
    ensures count { result ≡ 11 }
    ensures worked { Worked }
    ensures every { EveryInteger }
{
    6 + 5
}
