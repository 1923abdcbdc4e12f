// The promises to a caller of crates/table, crates/difference_calls, crates/message_calls, crates/message_writers,
// crates/import_calls, crates/replay_calls and crates/stream_records, who is asked nothing. There is no code here:
// proofs/Callers.antt shows that what it did after an accepted clear is a history, and so all of crates/promises,
// crates/difference_promises, crates/message_promises, crates/import_promises and crates/replay_promises holds of what it
// was given.
#![tactic(auto)]
