// The rows of a rule book over a ring, and the formulas over them: where edges end, what steps count, where a placement brings
// an edge, and what inflation makes of it. The check of a book, placements and readings all go by these.
// Clauses say `book_view`: a book has no model, since a model's `Value` cannot use a bound's ghost members yet (tried: `R.exact` is refused there).
// Functions and no methods: a row knows no ring, and a struct that holds an allocator beside a book would be no plainer.
#![tactic(auto)]

pub mod edge;
pub mod fault;
pub mod inflating;
pub mod lookups;
pub mod placing;
pub mod rows;
pub mod turns;
pub mod walks;
