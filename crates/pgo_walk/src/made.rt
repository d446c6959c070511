// Names with the made names that stand for them.
ghost use Rattle.std.specs.Prelude.{◌≡◌, option_map, IfOk};
ghost use Rattle.pgo_base.specs.Lookup.{find};
ghost use Rattle.pgo_model.specs.Written.{made};

use itoa::Buffer;
use pgo_base::text::Text;
use pgo_rewrite::shared::Shared;
use std::alloc::{AllocError, Global};

/// Names with made names, the newest first.
pub type Made = Shared<Text>;

/// The made name that stands for x, of which the newest counts.
pub fn made_for<'a>(x: &Text, names: &'a Made) -> Option<&'a Text>
    ensures { option_map (λ y. y.now) result ≡ find x.now names.now }
{
    names.find(x)
}

/// The n-th made name on a path: `base__n`.
pub fn make_name(alloc: Global, base: &[u8], n: u64) -> Result<Text, AllocError>
    ensures { IfOk result (λ y. y ≡ made base.now n) }
{
    let mut bytes = Vec::from_slice(alloc, base)?;
    bytes.extend_from_slice(b"__")?;
    let mut buffer = Buffer::new();
    bytes.extend_from_slice(buffer.format(n).as_bytes())?;
    Ok(Text::from_bytes(bytes)?)
}
