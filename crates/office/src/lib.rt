// What the program cards_run calls: the tool's number, for an exit status.
#![tactic(auto)]

ghost use Rattle.std.specs.Prelude.{◌<◌};

use cards::System;
use std::io::IsTerminal;

// cards::run.
pub fn cards_run<R: System, T: IsTerminal>(rt: &R, out: &T) -> u32
    ensures { result < 256 }
{
    cards::run(rt, out)
}
