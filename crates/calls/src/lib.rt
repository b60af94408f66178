// A sheet in progress: the rows of its piece list, its cursor, and what each call makes of them.
#![tactic(auto)]

pub mod cursor;
pub mod fault;
pub mod going;
pub mod limits;
pub mod lists;
pub mod row;
