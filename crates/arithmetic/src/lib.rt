// Arithmetic of finite fields, seen through the codes of their elements.
#![tactic(auto)]

mod elements;
mod field;
mod parity;
mod residue;

pub use elements::{difference, is_zero, same, sum_of_products};
pub use field::Arithmetic;
pub use parity::Parity;
pub use residue::Residue;
