// Bytes by place: little-endian numbers, runs of bytes, text fields, and why a call is refused.
#![tactic(auto)]

pub mod arrays;
pub mod copying;
pub mod numbers;
pub mod refusal;
pub mod signed;
pub mod slices;
pub mod text;
