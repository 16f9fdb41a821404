// How the steps of allocate, deallocate and grow keep tables sound, in mathematics alone: specs/. There is no code here.
#![tactic(auto)]

pub fn nothing() {}
