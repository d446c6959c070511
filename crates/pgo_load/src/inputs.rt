// What a load is run with: its constants and its settings.
ghost use Rattle.std.specs.Prelude.{◌≡◌, ◌++◌, ◌∷◌, [], map, pos, IfOk};
ghost use Rattle.pgo_base.specs.Data.{integer};
ghost use Rattle.pgo_base.specs.View.{named_data};
ghost use Rattle.pgo_load.specs.Load.{load_consts, load_settings};
ghost use Rattle.pgo_syntax.specs.RecordView.{settings_view};

use pgo_base::consts::Consts;
use pgo_base::text::Text;
use pgo_base::value::Value;
use pgo_syntax::records::{Down, Settings};
use std::alloc::{AllocError, Global};

/// Adds a constant that is a number, at the end.
fn push_number(
    alloc: Global,
    list: &mut Vec<(Text, Value)>,
    name: &[u8],
    number: u32,
) -> Result<(), AllocError>
    ensures { IfOk result (λ _. map named_data list.new.items ≡ map named_data list.old.items ++ (name.now, integer (pos number)) ∷ []) }
{
    let name = Text::from_slice(alloc, name)?;
    list.push((name, Value::Int(number as i64)))?;
    Ok(())
}

/// The constants of the load of this size: as many processes of each kind, and mailboxes of length 1.
pub fn consts_of(alloc: Global, size: u32) -> Result<Consts, AllocError>
    ensures { IfOk result (λ c. c ≡ load_consts size) }
{
    let mut list = Vec::new(alloc);
    push_number(alloc, &mut list, b"N", size)?;
    push_number(alloc, &mut list, b"BUFFER_SIZE", 1)?;
    Ok(Consts::from_vec(list))
}

/// The settings of the run of a load: seed 0, at most 100,000 attempts of an instance and at most 10,000 entries.
pub fn run_settings(alloc: Global) -> Settings
    ensures { settings_view result ≡ load_settings }
{
    Settings {
        seed: 0,
        attempts: 100_000,
        steps: 10_000,
        down: Down::new(alloc),
        park: false,
    }
}
