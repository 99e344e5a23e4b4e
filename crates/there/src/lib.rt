// Which samples of a waveform are there.
#![tactic(auto)]
