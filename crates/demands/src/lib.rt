// What was asked for, as theorems about the definition: they stand in specs/.
#![tactic(auto)]
