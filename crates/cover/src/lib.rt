// The Alloc and Free rectangles of sound tables cover the sheet exactly once: specs/Covered.antt. There is no code here.
#![tactic(auto)]

pub fn nothing() {}
