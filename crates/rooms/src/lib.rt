// That freeing and growing never hurt, in mathematics alone: specs/. There is no code here.
#![tactic(auto)]

pub fn nothing() {}
