// Windows, curves and queues: definitions (specs/) and laws (proofs/) that every crate above stands on. There is no code here.
#![tactic(auto)]
