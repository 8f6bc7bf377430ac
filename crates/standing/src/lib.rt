// Standing: the strip that stands for an endless paper. Definitions and laws only.
#![tactic(auto)]
