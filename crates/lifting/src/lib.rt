// Lifting: the highest kind lifted out of the bar, and the book of the kinds below inside the big one. Definitions and laws only.
#![tactic(auto)]
