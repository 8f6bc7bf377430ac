// Bar: what stood on the bar while blocks were exchanged by hand. Definitions and laws only.
#![tactic(auto)]
