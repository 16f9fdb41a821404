// The model of grow on whole tables: no code.
#![tactic(auto)]
