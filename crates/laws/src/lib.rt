// Definitions and laws that several crates cite: tests over numbers, searches, and chains of checks. There is no code.
#![tactic(auto)]
