// Worked examples, proved about the definitions that the loader's contract cites. There is no code.
#![tactic(auto)]
