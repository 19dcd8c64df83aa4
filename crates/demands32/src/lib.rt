// No code: the demands of the f32 filter, as theorems.
#![tactic(auto)]
