// Printed: what the two programs print for a line, and which strips those lines are of. Definitions and laws only.
#![tactic(auto)]
