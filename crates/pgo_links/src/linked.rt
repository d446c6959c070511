// Links round the contents of all resources.
ghost use Rattle.std.specs.Prelude.{◌≡◌, ◌≤◌, IfOk, vec_len};
ghost use Rattle.pgo_links.specs.LinkView.{AreLinked};

use crate::link::Link;
use pgo_resource::resource::Resource;
use std::alloc::{AllocError, Global};

/// A link round each of these contents, which are those of all resources in order: its number is its place. There are at most 1,024.
pub fn linked<R: Resource>(alloc: Global, contents: Vec<R>) -> Result<Vec<Link<R>>, AllocError>
    requires few { vec_len contents ≤ 1024 }
    ensures as_many { IfOk result (λ v. vec_len v ≡ vec_len contents) }
    ensures linked { IfOk result (λ v. AreLinked R.shows contents.items v.items) }
{
    let mut links = Vec::with_capacity(alloc, contents.len())?;
    for content in contents {
        let number = links.len() as u32;
        links.push(Link::new(content, number))?;
    }
    Ok(links)
}
