// A file read as its octets arrive.
#![tactic(auto)]
