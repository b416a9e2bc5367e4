// How far f32 operations reach, in whole numbers: mathematics, and no code. Rooms above show with it that no number
// passes a limit inside the house.

#![tactic(auto)]
