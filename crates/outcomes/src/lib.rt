// What a call leaves: specs/Given.antt. There is no code here.
#![tactic(auto)]

pub fn nothing() {}
