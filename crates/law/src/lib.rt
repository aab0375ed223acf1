// No code: theorems over the definitions that the other crates' contracts cite (specs/).
#![tactic(auto)]
