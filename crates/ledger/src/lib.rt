// The ledger of known days, as facts about the models: specs/. There is no code here.
#![tactic(auto)]

pub fn nothing() {}
