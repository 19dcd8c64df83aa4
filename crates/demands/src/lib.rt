// No code: what the customer asked for, as theorems over the definitions that the contracts cite.
#![tactic(auto)]
