// The customer's three demands as theorems over the calls' own contracts. This crate has no function.
#![tactic(auto)]
