// Where the samples of a waveform lie.
#![tactic(auto)]
