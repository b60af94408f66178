// Fixed cases of every layer: those on one list are shown from the definitions, the others are run.
#![tactic(auto)]

ghost use Rattle.vectors.specs.Cases.{EveryCaseHolds, fixed_cases};

#[cfg(test)]
mod book_cases;
pub mod books;
#[cfg(test)]
mod job_cases;
#[cfg(test)]
mod node_cases;
#[cfg(test)]
mod replanted;
#[cfg(test)]
mod ring_cases;
mod texts;

// Every case on the list of fixed cases holds.
pub fn fixed_cases_hold()
    ensures { EveryCaseHolds fixed_cases }
{}
