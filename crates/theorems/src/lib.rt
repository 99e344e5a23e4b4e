// What holds of the whole: the three demands, over the definitions that the contracts of `reader` and `canonical` cite.
#![tactic(auto)]
