// What sound tables are: specs/Sound.antt. There is no code here.
#![tactic(auto)]

pub fn nothing() {}
