//! What a caller in C keeps.

ghost use Rattle.std.specs.Prelude.{◌≡◌, MatchOption, Option, None, Some};
ghost use Rattle.c_api.specs.Handle.{MaybeKept, maybe_kept_coded, handle_owns, held_in};

use crate::kept::Kept;
use crate::loose::Loose;
use std::alloc::Global;
use std::marker::Model;
use std::mem;
use std::ptr::null_mut;

/// A module that is shared with other handles, or a function in progress, or none. C sees a pointer, which is null where
/// there is none.
///
/// It may go to another thread, and is used by one call at a time. It frees nothing by itself: [`Self::take`] gives
/// out what it has.
#[repr(C)]
pub struct Handle {
    at: *mut u8,
    /// What it has.
    pub ghost held: { MaybeKept } by { maybe_kept_coded },
}

impl Model for Handle {
    ghost also_owns = { λ h. handle_owns h.at h.held };
}

impl Handle {
    /// A handle that has nothing.
    fn none() -> Handle
        ensures { result.held ≡ None }
    {
        Handle { at: null_mut() }
    }

    /// The handle that has what lies there.
    fn of_loose(loose: Loose<Kept, Global>) -> Handle
        ensures { result.held ≡ Some loose.value }
    {
        let Loose { at, alloc: _ } = loose;
        Handle { at: at as *mut u8 }
    }

    /// What the handle has, with the handle of the heap.
    fn into_loose(self, alloc: Global) -> Option<Loose<Kept, Global>>
        ensures { MatchOption result (self.held ≡ None) (λ l. self.held ≡ Some l.value) }
    {
        let Handle { at } = self;
        if at.is_null() {
            None
        } else {
            Some(Loose {
                at: at as *mut Kept,
                alloc,
            })
        }
    }

    /// What the handle has.
    fn into_box(self, alloc: Global) -> Option<Box<Kept>>
        ensures { MatchOption result (self.held ≡ None) (λ b. self.held ≡ Some b.value) }
    {
        match self.into_loose(alloc) {
            Some(loose) => Some(loose.into_box()),
            None => None,
        }
    }

    /// Takes out what it has; it has nothing then.
    pub fn take(&mut self, alloc: Global) -> Option<Box<Kept>>
        ensures taken { self.old.held ≡ held_in result }
        ensures left { self.new.held ≡ None }
    {
        mem::replace(self, Handle::none()).into_box(alloc)
    }

    /// Puts something in, and frees what it had.
    pub fn put(&mut self, alloc: Global, kept: Box<Kept>)
        ensures { self.new.held ≡ Some kept.value }
    {
        let old = mem::replace(self, Handle::of_loose(Loose::of(kept)));
        drop(old.into_box(alloc));
    }

    /// Puts back what a call took.
    #[inline(always)]
    pub fn put_back(&mut self, alloc: Global, kept: Option<Box<Kept>>)
        requires { self.old.held ≡ None }
        ensures { self.new.held ≡ held_in kept }
    {
        if let Some(kept) = kept {
            self.fill(alloc, kept);
        }
    }

    /// Puts something into a handle that has nothing.
    #[inline(always)]
    pub fn fill(&mut self, alloc: Global, kept: Box<Kept>)
        requires { self.old.held ≡ None }
        ensures { self.new.held ≡ Some kept.value }
    {
        match mem::replace(self, Handle::of_loose(Loose::of(kept))).into_box(alloc) {
            None => {}
            Some(_) => unreachable!(),
        }
    }
}

unsafe impl Send for Handle {}
