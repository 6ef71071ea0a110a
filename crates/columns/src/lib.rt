// Columns of elements: who picks a pivot, and the workings that both engines use.
#![tactic(auto)]

mod choosers;
mod keep_free;
mod laws;
mod refusal;
mod workings;

pub use choosers::{Chooser, Greatest, MOST, Topmost};
pub use keep_free::KeepFree;
pub use laws::theory_holds;
pub use refusal::Refusal;
pub use workings::{solve_panel, subtract_product, swap_panel, unswap_panel};
