//! Requests in a list, with their answers.
use f11_bytes::Block;
use f11_store::{Refusal, Reply, Request, Task, Uic};

/// A request in a list, and what it was answered.
#[derive(Clone, Copy, Debug, PartialEq, Eq)]
pub struct Call {
    /// The task that asks.
    pub task: Task,
    /// The user for whom it asks.
    pub uic: Uic,
    /// What it asks.
    pub request: Request,
    /// The caller's block: `WriteBlock` writes it, `ReadBlock` fills it, and no other request touches it.
    pub block: Block,
    /// What it was answered: `None` until it is served.
    pub answer: Option<Result<Reply, Refusal>>,
}
