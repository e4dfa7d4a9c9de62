//! C's handle of a kernel.
ghost use Rattle.std.specs.Prelude.{◌≡◌, None, Some, MatchOption, is_none, false};
ghost use Rattle.std.specs.Borrow.{sem};
ghost use Rattle.lot_c.specs.Handles.{KernelValue, handle_owns, kernel_coded};

use crate::parts::Parts;
use lot_kernel::Kernel;
use std::alloc::Global;
use std::marker::{Model, Send};
use std::mem;
use std::ptr::null_mut;

/// C's handle of a kernel: an opaque pointer, null without a kernel.
#[repr(C)]
pub struct Handle {
    at: *mut u8,
    alloc: Global,
    pub ghost kernel: { KernelValue } by { kernel_coded },
}

impl Model for Handle {
    ghost also_owns = { λ h. handle_owns h.alloc h.at h.kernel };
}

/// A kernel shares nothing, so a handle may move from thread to thread.
unsafe impl Send for Handle {}

impl Drop for Handle {
    fn drop(self) {
        if let Some(parts) = self.into_parts() {
            drop(parts.into_box());
        }
    }
}

impl Handle {
    ghost use Rattle.lot_c.specs.Lending.{LendsKernel, LendsKernelIf};

    /// A handle without a kernel.
    fn empty(alloc: Global) -> Handle
        ensures { result.kernel ≡ None }
    {
        Handle {
            at: null_mut(),
            alloc,
        }
    }

    /// A handle of the kernel with these parts.
    fn filled(parts: Parts<Kernel, Global>) -> Handle
        ensures { result.kernel ≡ Some parts.value }
    {
        let Parts { at, alloc } = parts;
        let at = at as *mut u8;
        Handle { at, alloc }
    }

    /// The parts of the kernel, or `None` if the handle has none.
    fn into_parts(self) -> Option<Parts<Kernel, Global>>
        ensures { MatchOption result (self.kernel ≡ None) (λ p. self.kernel ≡ Some p.value) }
    {
        let Handle { at, alloc } = self;
        if at.is_null() {
            None
        } else {
            let at = at as *mut Kernel;
            Some(Parts { at, alloc })
        }
    }

    /// The kernel in place, or `None` if the handle has none.
    pub(crate) fn get_mut(&mut self) -> Option<&mut Kernel>
        ensures* writes_back { sem 𝓛 (LendsKernelIf self.entry result) }
        ensures value { MatchOption result (self.old.kernel ≡ None) (λ r. self.old.kernel ≡ Some r.now) }
    {
        if self.is_empty() {
            None
        } else {
            Some(self.kernel())
        }
    }

    /// Whether the handle has no kernel.
    pub(crate) fn is_empty(&mut self) -> bool
        ensures { (result ≡ is_none self.old.kernel) × (self.new ≡ self.old) }
    {
        self.at.is_null()
    }

    /// The kernel in place.
    fn kernel(&mut self) -> &mut Kernel
        requires { is_none self.old.kernel ≡ false }
        ensures* writes_back { sem 𝓛 (LendsKernel self.entry result) }
        ensures value { self.old.kernel ≡ Some result.now }
    {
        unsafe { &mut *(self.at as *mut Kernel) }
    }

    /// Takes the kernel out, or returns `None` if the handle has none.
    pub(crate) fn take(&mut self, alloc: Global) -> Option<Box<Kernel>>
        ensures kernel { MatchOption result (self.old.kernel ≡ None) (λ k. self.old.kernel ≡ Some k.value) }
        ensures empty { self.new.kernel ≡ None }
    {
        let held = mem::replace(self, Handle::empty(alloc));
        Some(held.into_parts()?.into_box())
    }

    /// Puts a kernel in.
    pub(crate) fn put(&mut self, kernel: Box<Kernel>)
        ensures { self.new.kernel ≡ Some kernel.value }
    {
        *self = Handle::filled(Parts::of(kernel));
    }
}
