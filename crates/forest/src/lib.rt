// The slots of sound tables as a forest, in mathematics alone: specs/. There is no code here.
#![tactic(auto)]

pub fn nothing() {}
