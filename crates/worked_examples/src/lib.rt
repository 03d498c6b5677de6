// The worked examples of document 01 are a table, specs/WorkedExamples.antt; that they compute is
// proofs/WorkedExamples.antt. There is no code to them.
