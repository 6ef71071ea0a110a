// Sets of columns: each column offered is taken, redundant or a clash.
#![tactic(auto)]

mod factors;
mod reply;
mod set;
mod theory;
mod verdict;

pub use reply::Reply;
pub use set::{Open, OpenSet, Sealed, SealedSet, Set, Stage};
pub use theory::laws_hold;
pub use verdict::Verdict;
