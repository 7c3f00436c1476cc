//! What is true of a job: which points its moves remove and may meet, what each move finds, and the law of a safe move, by definitions.
#![tactic(auto)]
