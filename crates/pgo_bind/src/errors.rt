// Why a specification can't be bound.
pub use pgo_heads::errors::BindError;
