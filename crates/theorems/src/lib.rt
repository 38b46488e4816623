// What a load promises, as propositions about the definitions that the loader's contract cites. There is no code: start with
// specs/Promises.antt.
#![tactic(auto)]
