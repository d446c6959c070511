// Changes put into a state.
ghost use Rattle.std.specs.Prelude.{◌≡◌, map, option_map, IfOk};
ghost use Rattle.pgo_base.specs.View.{data_of, named_data};
ghost use Rattle.pgo_model.specs.LogView.{change_view};
ghost use Rattle.pgo_journal.specs.States.{put, put_all, with_new};

use pgo_base::log::Change;
use pgo_base::text::Text;
use pgo_base::value::{Fun, Value};
use pgo_sets::functions::replaced;
use pgo_sets::lookup::place_in;
use std::alloc::{AllocError, Global};

/// These changes, one after another.
pub fn put_all(
    alloc: Global,
    list: &mut Vec<(Text, Value)>,
    changes: &[Change],
) -> Result<(), AllocError>
    ensures { IfOk result (λ _. map named_data list.new.items ≡ put_all (map change_view changes.now) (map named_data list.old.items)) }
{
    for c in changes {
        put(alloc, list, c)?;
    }
    Ok(())
}

/// One change.
fn put(alloc: Global, list: &mut Vec<(Text, Value)>, c: &Change) -> Result<(), AllocError>
    ensures { IfOk result (λ _. map named_data list.new.items ≡ put (change_view c.now) (map named_data list.old.items)) }
{
    let Some(i) = place_in(&c.component.variable, list) else {
        return Ok(());
    };
    let v = with_new(alloc, &c.component.index, &c.value, &list[i].1)?;
    list[i].1 = v;
    Ok(())
}

/// What a value becomes where it, or its part at an index, becomes this value.
fn with_new(
    alloc: Global,
    index: &Option<Value>,
    value: &Value,
    old: &Value,
) -> Result<Value, AllocError>
    ensures { IfOk result (λ v. data_of v ≡ with_new (option_map data_of index.now) (data_of value.now) (data_of old.now)) }
{
    match (index, old) {
        (None, _) => value.copy(alloc),
        (Some(i), Value::Fun(f)) => {
            let pairs = replaced(alloc, f, i, value)?;
            Ok(Value::Fun(Fun::from_sorted(pairs)?))
        }
        _ => old.copy(alloc),
    }
}
