// Rules 2, 3 and 4 as tests of one slot, and that the tests are the rules: specs/. There is no code here.
#![tactic(auto)]

pub fn nothing() {}
