//! How a node's party stands: its next step, and how much it did.
ghost use Rattle.std.specs.Prelude.{◌≡◌};
ghost use Rattle.sj_node.specs.Node.{requests_of, steps_of, wants_of};

use crate::Node;
use sj_semantics::Want;

impl Node {
    /// The next step of the program.
    pub fn wants(&self) -> Want
        ensures { result ≡ wants_of self.now }
    {
        self.machine.wants()
    }

    /// How many steps the program has done.
    pub fn steps(&self) -> u32
        ensures { result ≡ steps_of self.now }
    {
        self.machine.steps()
    }

    /// How many sessions the party opened.
    pub fn requests(&self) -> u8
        ensures { result ≡ requests_of self.now }
    {
        self.requests
    }
}
