// Mathematics, no code: document 01's sums S and C as fractions of whole numbers, and the laws
// about them that the rooms of sines and arcs stand on.

#![tactic(auto)]
