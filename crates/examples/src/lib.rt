// Document 01's worked examples, proved of the definitions by one theorem over a table: specs/Table.antt, proofs/Examples.antt. No code.
#![tactic(auto)]
