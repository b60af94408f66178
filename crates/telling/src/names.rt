// Names of nodes.
use nodes::address::Address;
use std::fmt;
use std::fmt::Display;

// A node's name: its seed's number and the child numbers down to it, as 0.3.1.
#[derive(Clone, Copy)]
pub struct Name<'a>(pub &'a Address);

impl Display for Name<'_> {
    fn fmt<W: fmt::Write>(&self, f: &mut fmt::Formatter<W>) -> fmt::Result {
        let seed = self.0.seed;
        write!(f, "{seed}")?;
        for k in self.0.children() {
            write!(f, ".{k}")?;
        }
        Ok(())
    }
}
