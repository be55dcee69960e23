//! The place for an IOMMU's table that C holds: an `IotlbPlace` in a box behind a pointer, or none.

ghost use Rattle.std.specs.Prelude.{◌≡◌, Option, Some, None, is_some, option_map, if◌then◌else◌};
ghost use Rattle.fs_chain.specs.declared.iotlb_place.IotlbPlace.{IotlbPlace};
ghost use Rattle.fs_chain_c.specs.Owned.{iotlb_owns, iotlb_value_coded, null};

use crate::parts::BoxParts;
use fs_chain::IotlbPlace;
use std::alloc::Global;
use std::marker::Model;
use std::mem;

/// An `IotlbPlace` that C holds, in a box, or none: all zeros is none.
#[repr(C)]
pub struct FsIotlb {
    at: *mut (),
    alloc: Global,
    full: u32,
    /// The `IotlbPlace` behind the pointer, if there is one.
    pub ghost value: { Option IotlbPlace } by { iotlb_value_coded },
    ghost known: { full ≡ (if is_some value then 1 else 0) },
}

impl Model for FsIotlb {
    ghost also_owns = { λ c. iotlb_owns c.alloc c.at c.value };
}

impl FsIotlb {
    /// No `IotlbPlace`: a null pointer.
    pub fn empty(alloc: Global) -> FsIotlb
        ensures { (result.value ≡ None) × (result.at ≡ null) × (result.full ≡ 0) }
    {
        FsIotlb {
            at: std::ptr::null_mut(),
            alloc,
            full: 0,
        }
    }

    /// An `IotlbPlace`, which leaves its box for the pointer.
    pub fn of_box(place: Box<IotlbPlace>) -> FsIotlb
        ensures { result.value ≡ Some place.value }
    {
        FsIotlb::of_parts(BoxParts::of(place))
    }

    /// The `IotlbPlace` in a box again, if there is one.
    pub fn into_box(self) -> Option<Box<IotlbPlace>>
        ensures { self.value ≡ option_map (λ b. b.value) result }
    {
        match self.into_parts() {
            Some(parts) => Some(parts.into_box()),
            None => None,
        }
    }

    /// Takes the `IotlbPlace` out, if there is one.
    pub fn take(&mut self, alloc: Global) -> Option<Box<IotlbPlace>>
        ensures taken { self.old.value ≡ option_map (λ b. b.value) result }
        ensures none { self.new.value ≡ None }
    {
        mem::replace(self, FsIotlb::empty(alloc)).into_box()
    }

    // The pointer to a box that was taken apart.
    fn of_parts(parts: BoxParts<IotlbPlace, Global>) -> FsIotlb
        ensures { result.value ≡ Some parts.value }
    {
        let BoxParts { ptr, alloc } = parts;
        FsIotlb {
            at: ptr as *mut (),
            alloc,
            full: 1,
        }
    }

    // The parts of the box behind the pointer, if there is one.
    fn into_parts(self) -> Option<BoxParts<IotlbPlace, Global>>
        ensures { self.value ≡ option_map (λ p. p.value) result }
    {
        let FsIotlb { at, alloc, full } = self;
        if full == 0 {
            None
        } else {
            let ptr = at as *mut IotlbPlace;
            Some(BoxParts { ptr, alloc })
        }
    }
}

impl Drop for FsIotlb {
    // In sight of the calls, which put a `IotlbPlace` where none is and drop none so.
    #[inline(always)]
    fn drop(self) {
        match self.into_box() {
            Some(place) => drop(place),
            None => {}
        }
    }
}
