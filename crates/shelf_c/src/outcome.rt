//! How a call ended.

/// How a call ended, and how many octets its answer has. They are at the front of the buffer: the text, and
/// after it what is reported.
#[repr(C)]
#[derive(Clone, Copy, Debug, PartialEq, Eq)]
pub struct Outcome {
    /// The number that a program ends with; or 8, where text and what is reported
    /// don't fit and the buffer is as it was.
    pub status: u32,
    /// How many octets the text has. 0 where there is none.
    pub length: usize,
    /// How many octets of what is reported come after the text: why there is none, or what is noticed of it.
    pub told: usize,
}
