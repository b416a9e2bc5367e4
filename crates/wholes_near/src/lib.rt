// No code: the whole-number step beside the f32 step (request K13).

#![tactic(auto)]
