//! The handle that C holds: a `ChainHandle` in a box behind a pointer whose type C may see, or none.

ghost use Rattle.std.specs.Prelude.{◌≡◌, Option, Some, None, is_some, true, option_map};
ghost use Rattle.fs_chain.specs.declared.chain_handle.ChainHandle.{ChainHandle};
ghost use Rattle.fs_chain_c.specs.Owned.{chain_owns, chain_value_coded, null};
ghost use Rattle.fs_chain_c.specs.States.{handle_state};

use crate::parts::BoxParts;
use fs_chain::ChainHandle;
use std::alloc::Global;
use std::marker::Model;
use std::mem;

/// The pointer to a `ChainHandle` that left its box, or null.
#[repr(C)]
pub struct ChainBox {
    at: *mut (),
    alloc: Global,
    /// The `ChainHandle` behind the pointer, if there is one.
    pub ghost value: { Option ChainHandle } by { chain_value_coded },
}

impl Model for ChainBox {
    ghost also_owns = { λ c. chain_owns c.alloc c.at c.value };
}

impl ChainBox {
    // A null pointer.
    fn empty(alloc: Global) -> ChainBox
        ensures { (result.value ≡ None) × (result.at ≡ null) }
    {
        ChainBox {
            at: std::ptr::null_mut(),
            alloc,
        }
    }

    // Lets a null pointer go.
    fn end(self)
        requires { self.value ≡ None }
    {
        let ChainBox { at: _, alloc: _ } = self;
    }

    // The pointer to a box that was taken apart.
    fn of_parts(parts: BoxParts<ChainHandle, Global>) -> ChainBox
        ensures { result.value ≡ Some parts.value }
    {
        let BoxParts { ptr, alloc } = parts;
        ChainBox {
            at: ptr as *mut (),
            alloc,
        }
    }

    // The parts of the box behind the pointer.
    fn into_parts(self) -> BoxParts<ChainHandle, Global>
        requires { is_some self.value ≡ true }
        ensures { self.value ≡ Some result.value }
    {
        let ChainBox { at, alloc } = self;
        let ptr = at as *mut ChainHandle;
        BoxParts { ptr, alloc }
    }
}

/// A `ChainHandle` that C holds, in a box, or none: all zeros is none.
#[repr(C)]
pub struct FsChain {
    /// The box, if there is one.
    pub held: ChainBox,
    state: u32,
    ghost known: { state ≡ handle_state held.value },
}

impl FsChain {
    /// No `ChainHandle`: a null pointer.
    pub fn empty(alloc: Global) -> FsChain
        ensures { (result.held.value ≡ None) × (result.held.at ≡ null) × (result.state ≡ 0) }
    {
        FsChain {
            held: ChainBox::empty(alloc),
            state: 0,
        }
    }

    /// A `ChainHandle`, which leaves its box for the pointer.
    pub fn of_box(handle: Box<ChainHandle>) -> FsChain
        ensures { result.held.value ≡ Some handle.value }
    {
        let state = u32::from(handle.state_number());
        FsChain {
            held: ChainBox::of_parts(BoxParts::of(handle)),
            state,
        }
    }

    /// The number of the chain's state; 0 if there is no `ChainHandle`.
    pub fn state(&self) -> u32
        ensures { result ≡ handle_state self.now.held.value }
    {
        self.state
    }

    /// The `ChainHandle` in a box again, if there is one.
    pub fn into_box(self) -> Option<Box<ChainHandle>>
        ensures { self.held.value ≡ option_map (λ b. b.value) result }
    {
        let FsChain { held, state } = self;
        if state == 0 {
            held.end();
            None
        } else {
            Some(held.into_parts().into_box())
        }
    }

    /// Takes the `ChainHandle` out, if there is one.
    pub fn take(&mut self, alloc: Global) -> Option<Box<ChainHandle>>
        ensures taken { self.old.held.value ≡ option_map (λ b. b.value) result }
        ensures none { self.new.held.value ≡ None }
    {
        mem::replace(self, FsChain::empty(alloc)).into_box()
    }
}

impl Drop for FsChain {
    // In sight of the calls, which put a `ChainHandle` where none is and drop none so.
    #[inline(always)]
    fn drop(self) {
        match self.into_box() {
            Some(handle) => drop(handle),
            None => {}
        }
    }
}
