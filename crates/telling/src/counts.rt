// How many pieces of a list are laid, and how many nodes are set aside.
ghost use Rattle.std.specs.Prelude.{◌≡◌, ◌-◌, length, take, is_some};
ghost use Rattle.std.specs.List.{filter};
ghost use Rattle.calls.specs.declared.row.Row.{Row};

use calls::row::Row;
use std::fmt;
use std::fmt::Display;

#[derive(Clone, Copy)]
pub struct Counts {
    pub laid: usize,
    pub aside: usize,
}

impl Counts {
    // Those of a list's first rows.
    pub fn of<C>(list: &[Row<C>], count: usize) -> Counts
        ensures laid { result.laid ≡ length (filter (λ (r : Row C). is_some r.laid) (take count list.now)) }
        ensures aside { result.aside ≡ count - result.laid }
    {
        let laid = list
            .iter()
            .take(count)
            .filter(|row| row.laid.is_some())
            .count();
        Counts {
            laid,
            aside: count.saturating_sub(laid),
        }
    }
}

impl Display for Counts {
    fn fmt<W: fmt::Write>(&self, f: &mut fmt::Formatter<W>) -> fmt::Result {
        let laid = self.laid;
        let aside = self.aside;
        write!(f, "{laid} laid, {aside} set aside")
    }
}
