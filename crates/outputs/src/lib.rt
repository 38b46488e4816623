// What a caller in C and a reader of the report are given, as propositions about the definitions that the contracts of
// `viertompu` and `report` cite. There is no code: start with specs/Outputs.antt.
#![tactic(auto)]
