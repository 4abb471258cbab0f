//! The kinds of routing message.

/// What a routing message is. Each kind carries the sender's reported distance.
#[derive(Clone, Copy, Debug, PartialEq, Eq)]
pub enum Kind {
    /// News that wants no answer.
    Update,
    /// A question: the receiver owes a reply.
    Query,
    /// The answer to a query.
    Reply,
}
