// The model of deallocate on whole tables: no code.
#![tactic(auto)]
