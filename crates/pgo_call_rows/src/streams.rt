// Rows on the calls that a command makes of its streams.
pub mod answer;
pub mod calls;
pub mod counted_sink;
pub mod counted_source;
pub mod limits;
pub mod rows;
