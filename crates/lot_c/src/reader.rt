//! C's handle of a kernel in calls that only read it.
ghost use Rattle.std.specs.Prelude.{◌≡◌, ℕ, None, Some, MatchOption};
ghost use Rattle.std.specs.Borrow.{sem};
ghost use base.Fml.{Share};
ghost use base.SetCodes.{coded_share};
ghost use Rattle.lot_c.specs.Handles.{KernelValue, handle_shares, kernel_coded, reader_owns};

use lot_kernel::Kernel;
use std::marker::{Model, Send};

/// C's handle of a kernel in a call that only reads it: a `Handle` as it lies in memory.
///
/// It doesn't own the kernel. C lends the kernel to such calls for a while in which nothing changes it. Each call owns
/// a share of the promise that this while lasts, so several may read at once.
#[repr(C)]
pub struct ReadHandle {
    at: *mut u8,
    pub ghost kernel: { KernelValue } by { kernel_coded },
    ghost life: { ℕ },
    ghost share: { Share } by { coded_share },
}

impl Model for ReadHandle {
    ghost also_owns = { λ h. reader_owns h.at h.kernel h.life h.share };
}

/// Nobody changes a lent kernel, so readers may be on any thread.
unsafe impl Send for ReadHandle {}

/// The parts of a `ReadHandle`, readable through a reference. An export may take no such struct.
#[repr(C)]
pub(crate) struct Reader {
    at: *mut u8,
    pub ghost kernel: { KernelValue } by { kernel_coded },
    ghost life: { ℕ },
    ghost share: { Share } by { coded_share },
}

impl Model for Reader {
    ghost also_owns = { λ r. reader_owns r.at r.kernel r.life r.share };

    ghost also_shares = { λ r _ κ. handle_shares r.at r.kernel κ };
}

impl ReadHandle {
    ghost use Rattle.lot_c.specs.Readers.{LendsReader, handle_of};

    /// The handle as a reader, in place.
    pub(crate) fn reader(&mut self) -> &mut Reader
        ensures* writes_back { sem 𝓛 (LendsReader self.entry result) }
        ensures value { (handle_of result.now ≡ self.old) × (result.now.kernel ≡ self.old.kernel) }
    {
        unsafe { &mut *(self as *mut ReadHandle as *mut Reader) }
    }
}

impl Reader {
    /// The kernel, or `None` if the handle has none.
    pub(crate) fn get(&self) -> Option<&Kernel>
        ensures { MatchOption result (self.now.kernel ≡ None) (λ k. self.now.kernel ≡ Some k.now) }
    {
        let at = self.at as *const Kernel;
        if at.is_null() {
            None
        } else {
            Some(unsafe { &*at })
        }
    }
}
