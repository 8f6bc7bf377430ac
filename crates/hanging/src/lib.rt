// Hanging: whether a strip stands for its endless paper, and hanging one so that it does.
#![tactic(auto)]

mod either;
mod least;
mod reversing;
mod stands;

pub use either::{Hanging, least_hanging};
pub use reversing::hang;
pub use stands::is_standing;
