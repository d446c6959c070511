ghost use Rattle.std.specs.Prelude.{◌≡◌, List, [], ℕ, IfOk};
ghost use Rattle.std.specs.Cmp.Lexicographic.{slice_cmp};
ghost use Rattle.std.specs.Ordering.{nat_cmp};
ghost use Rattle.pgo_base.specs.Lookup.{same_name};

use crate::items::Copied;
use std::alloc::{AllocError, Global};
use std::cmp::Ordering;
use std::marker::Model;
use std::sync::ArcSlice;

/// A text of bytes: none where it is empty.
pub struct Text {
    bytes: Option<ArcSlice<u8>>,
}

impl Drop for Text {
    fn drop(self) {
        let Text { bytes } = self;
    }
}

impl Model for Text {
    ghost use Rattle.std.specs.Prelude.{List, ℕ};

    ghost Value = { List ℕ };

    ghost use Rattle.std.specs.Prelude.{[], unwrap_or, option_map};
    ghost use Rattle.std.specs.Arc.{arc_slice_items};

    ghost view = { λ t. unwrap_or (option_map arc_slice_items t.bytes) [] };
}

impl Text {
    pub fn from_bytes(bytes: Vec<u8>) -> Result<Text, AllocError>
        ensures { IfOk result (λ t. t ≡ bytes.items) }
    {
        let bytes = ArcSlice::from_vec(bytes)?;
        Ok(Text { bytes: Some(bytes) })
    }

    pub fn as_bytes(&self) -> &[u8]
        ensures { result.now ≡ self.now }
    {
        match &self.bytes {
            Some(bytes) => bytes.as_slice(),
            None => &[],
        }
    }

    /// The same text once more: another owner of its bytes.
    pub fn copy(&self, _alloc: Global) -> Result<Text, AllocError>
        ensures { IfOk result (λ t. t ≡ self.now) }
    {
        match &self.bytes {
            Some(bytes) => Ok(Text {
                bytes: Some(bytes.clone()?),
            }),
            None => Ok(Text { bytes: None }),
        }
    }

    pub fn compare(&self, other: &Text) -> Ordering
        ensures { result ≡ slice_cmp nat_cmp self.now other.now }
    {
        self.as_bytes().cmp(other.as_bytes())
    }

    pub fn is(&self, other: &Text) -> bool
        ensures { result ≡ same_name self.now other.now }
    {
        self.as_bytes() == other.as_bytes()
    }

    /// Whether it is of these bytes.
    pub fn is_bytes(&self, bytes: &[u8]) -> bool
        ensures { result ≡ same_name bytes.now self.now }
    {
        bytes == self.as_bytes()
    }
}

impl Text {
    pub fn new(_alloc: Global) -> Text
        ensures { result ≡ [] }
    {
        Text { bytes: None }
    }
}

impl Text {
    pub fn from_slice(alloc: Global, bytes: &[u8]) -> Result<Text, AllocError>
        ensures { IfOk result (λ t. t ≡ bytes.now) }
    {
        Text::from_bytes(Vec::from_slice(alloc, bytes)?)
    }
}

impl Copied for Text {
    fn copy(&self, alloc: Global) -> Result<Text, AllocError> {
        Text::copy(self, alloc)
    }
}
