// Walking: moving a strip on and back through its book.
#![tactic(auto)]

pub mod finding;
pub mod stepping;
pub mod walk;

use stock::Refusal;
use walker::Walker;

// What Walk answers: the two places that were exchanged, smaller first, and the walker of the strip as it then stands.
#[repr(C)]
#[derive(Clone, Copy)]
pub struct Moved {
    pub refusal: Refusal,
    pub low: u8,
    pub high: u8,
    pub walker: Walker,
}
