// How floats compute, in whole numbers: mathematics, and no code. The definitions stand in specs/, the laws in proofs/;
// docs/UNITS.md names the ten laws to begin with.

#![tactic(auto)]
