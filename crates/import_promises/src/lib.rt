// What is promised of imports, proved of the definitions alone. There is no code here: crates/stream_promises has it of any stream
// whose records keep some laws, and those of a dump keep them (proofs/Laws.antt). What is a dump's own, the adds that its records
// are and what is counted of them, is defined in specs/Dumps.antt. Each theorem stands here for imports, under the name that
// docs/PROMISES.md has.
#![tactic(auto)]
