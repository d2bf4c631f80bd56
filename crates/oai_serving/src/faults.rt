use thiserror::Error;

/// Why a server ended.
#[derive(Clone, Copy, Debug, PartialEq, Eq, Error)]
pub enum ServeFault {
    /// It could not wait for readiness.
    #[error("the sockets could not be waited for")]
    Wait,
    /// The clock could not be read.
    #[error("the clock could not be read")]
    Clock,
    /// What was performed could not be made durable; its answers were not written.
    #[error("what was performed could not be made durable")]
    Unsettled,
}
