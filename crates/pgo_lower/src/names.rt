// What the names of an instance are.
use crate::globals::Globals;
use crate::indexed_slots::IndexedSlots;
use pgo_effects::setting::Setting;

/// Whose statements they are, what the names of parameters and locals stand for, and what globals are.
#[derive(Clone, Copy)]
pub struct Names<'i, 't, 'a> {
    pub setting: Setting<'a, 'i>,
    pub slots: &'t IndexedSlots,
    pub globals: &'t Globals<'a>,
}
