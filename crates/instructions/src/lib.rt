// The instructions: their definition stands in specs/.
#![tactic(auto)]
