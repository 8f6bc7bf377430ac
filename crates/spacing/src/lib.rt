// Spacing: the call that looks for the next strip with no two of a kind touching.
#![tactic(auto)]

pub mod next_apart;
mod seek;
