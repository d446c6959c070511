// Runs of two instances on threads, in orders that gates say.
pub mod answer;
pub mod gates;
pub mod rows;
