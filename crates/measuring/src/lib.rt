// Measuring how far apart two strips of one stock are: the call Distance.
#![tactic(auto)]

pub mod distance;
