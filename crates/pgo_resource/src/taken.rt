// A held resource.

/// A held resource, with its content's count of pre-commits at the take.
#[derive(Clone, Copy, Drop)]
pub struct Taken {
    pub resource: u32,
    pub count: u64,
}
