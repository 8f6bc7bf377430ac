// Dictionary: the dictionary order of the strips of a stock. Definitions and theorems only.
#![tactic(auto)]
