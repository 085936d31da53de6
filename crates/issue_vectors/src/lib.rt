//! What becomes of what memory is refused to, copies, and buffers that count, as tests. What rows can say is in
//! `vectors` and `issue_cases`.
#![tactic(auto)]

#[cfg(test)]
mod buffers;
#[cfg(test)]
mod copies;
#[cfg(test)]
mod refused_memory;
