// Cuts: how often the pattern rule is used on a word, and for all kinds of a strip. Definitions and laws only.
#![tactic(auto)]
