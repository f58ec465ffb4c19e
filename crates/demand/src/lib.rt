// Demand 3 ("For demand 3" and "Append" of the scope paper): what the reading gives after power fails in an accepted
// append, proved over the definitions in metafile; and demand 2 for append, the round trip. Proofs only:
// proofs/Theorem.antt has `demand3`; proofs/RoundTrip.antt has `round_trip`; proofs/Counted.antt has `counted`, which
// metafile/proofs/Cuts.antt tries on two cuts. They rest on the laws in laws, chunk_laws and written_laws.
// examples/proofs/Without.antt shows that `demand3` needs tests 15 and 16.
#![tactic(auto)]
