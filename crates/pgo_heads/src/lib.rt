// The heads of a specification, where values are given: its constants and definitions, its processes with archetypes,
// arguments and identifiers, its mapping clauses, what each global is among the resources, and the rules on these.
//
// The definitions of the bound system stand in `pgo_bound`, those of what refuses it here. Nothing is evaluated here:
// `pgo_bind` does that. All that is public is for `pgo_bind` alone, which passes on `errors`.
#![tactic(auto)]

pub mod archetypes_run;
pub mod bad_mapping;
pub mod const_missing;
pub mod const_unknown;
mod declared_names;
pub mod definitions;
pub mod errors;
pub mod findings;
pub mod given_values;
pub mod globals;
pub mod identifiers;
pub mod ids_no_value;
mod indexed_arguments;
pub mod indexed_spec;
pub mod instances;
pub mod kinds;
pub mod mapping;
mod mapping_clauses;
mod named_globals;
mod number_map;
pub mod runs;
pub mod same_id;
pub mod start_values;
pub mod too_many_instances;
pub mod too_many_resources;
pub mod well_formed;
