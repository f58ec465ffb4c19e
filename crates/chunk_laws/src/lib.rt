// Laws of one chunk and of a reading ("Chunk", "File header" and "Reading" of the scope paper), over the definitions in
// metafile: what is whole lies inside its bytes and is the same with more bytes behind, and how many rows are enough.
// Proofs only, in proofs/. They rest on the laws in laws.
#![tactic(auto)]
