//! Equal plans of modules that are created.

ghost use Rattle.std.specs.Prelude.{◌≡◌, IfOk};

use crate::reply::{FixedSize, FixedValue, Plan};
use sqlite_items::Items;
use std::alloc::{AllocError, Global};

impl FixedValue {
    /// An equal one.
    pub fn copy(&self, alloc: Global) -> Result<FixedValue, AllocError>
        ensures { IfOk result (λ copy. copy ≡ self.now) }
    {
        Ok(FixedValue {
            name: self.name.copy(alloc)?,
            value: self.value.copy(alloc)?,
        })
    }
}

impl FixedSize {
    /// An equal one.
    pub fn copy(&self, alloc: Global) -> Result<FixedSize, AllocError>
        ensures { IfOk result (λ copy. copy ≡ self.now) }
    {
        Ok(FixedSize {
            name: self.name.copy(alloc)?,
            size: self.size,
        })
    }
}

/// Equal values.
fn copy_values(alloc: Global, values: &[FixedValue]) -> Result<Items<FixedValue>, AllocError>
    ensures { IfOk result (λ copy. copy ≡ values.now) }
{
    let mut copy = Items::new(alloc);
    for value in values {
        copy.push(value.copy(alloc)?)?;
    }
    Ok(copy)
}

/// Equal sizes.
fn copy_sizes(alloc: Global, sizes: &[FixedSize]) -> Result<Items<FixedSize>, AllocError>
    ensures { IfOk result (λ copy. copy ≡ sizes.now) }
{
    let mut copy = Items::new(alloc);
    for size in sizes {
        copy.push(size.copy(alloc)?)?;
    }
    Ok(copy)
}

impl Plan {
    /// An equal plan.
    pub fn copy(&self, alloc: Global) -> Result<Plan, AllocError>
        ensures { IfOk result (λ copy. copy ≡ self.now) }
    {
        Ok(Plan {
            type_name: self.type_name.copy(alloc)?,
            parameters: copy_values(alloc, self.parameters.as_slice())?,
            sizes: copy_sizes(alloc, self.sizes.as_slice())?,
        })
    }
}
