//! Copies that allocate.

ghost use Rattle.std.specs.Prelude.{List, ℕ, Option, option_map, map, string_bytes};

use std::alloc::{AllocError, Global};

/// A type that can be copied with an allocator. Contracts see the copy as equal to the original.
pub trait TryClone: Sized {
    ghost use Rattle.std.specs.Prelude.{◌≡◌, IfOk};

    /// What contracts compare of a value: its contents, not its place in memory.
    ghost Seen: { Type 0 };

    ghost seen: { Self → Seen };

    /// Returns a copy, or an error if memory runs out.
    fn try_clone(&self, alloc: Global) -> Result<Self, AllocError>
        ensures { IfOk result (λ copy. seen copy ≡ seen self.now) };
}

impl TryClone for String {
    ghost Seen = { List ℕ };

    ghost seen = { string_bytes };

    fn try_clone(&self, alloc: Global) -> Result<String, AllocError> {
        String::from_str(alloc, self.as_str())
    }
}

impl<T: TryClone> TryClone for Option<T> {
    ghost Seen = { Option T.Seen };

    ghost seen = { option_map T.seen };

    fn try_clone(&self, alloc: Global) -> Result<Option<T>, AllocError> {
        match self {
            Some(value) => Ok(Some(value.try_clone(alloc)?)),
            None => Ok(None),
        }
    }
}

impl<T: TryClone + Drop> TryClone for Vec<T> {
    ghost Seen = { List T.Seen };

    ghost seen = { λ list. map T.seen list.items };

    fn try_clone(&self, alloc: Global) -> Result<Vec<T>, AllocError> {
        let mut copies = Vec::new(alloc);
        for value in self {
            copies.push(value.try_clone(alloc)?)?;
        }
        Ok(copies)
    }
}
