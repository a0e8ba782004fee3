//! What a call may use.

ghost use Rattle.std.specs.Prelude.{◌≡◌, ◌+◌, ◌≤◌, ◌↔◌, OnOk, OnErr};
ghost use Rattle.sedck_model.specs.declared.spending.Undecided.TheVariants.{OutOfMemory};

use std::alloc::{AllocError, AllocFailed, Global};

/// What a call may use: where its memory comes from, and how many steps it may still make.
#[derive(Clone, Copy)]
pub struct Budget {
    pub alloc: Global,
    pub left: u64,
}

impl Budget {
    /// Takes one step of the budget.
    pub fn spend(&mut self) -> Result<(), Undecided>
        ensures used { result ≡ Err Undecided.OutOfBudget ↔ (self.old.left ≡ 0) }
        ensures ok { OnOk result (self.new.left + 1 ≡ self.old.left) }
        ensures err { OnErr result (self.new.left ≡ 0) }
        ensures spent { self.new.left ≤ self.old.left }
    {
        if self.left == 0 {
            return Err(Undecided::OutOfBudget);
        }
        self.left -= 1;
        Ok(())
    }
}

/// Why something isn't decided.
#[derive(Debug, Clone, Copy, PartialEq, Eq)]
pub enum Undecided {
    /// The budget was used up.
    OutOfBudget,
    /// Memory ran out.
    OutOfMemory,
}

impl From<AllocError> for Undecided {
    ghost from_gives = { λ _ e. e ≡ OutOfMemory };

    fn from(_e: AllocError) -> Undecided {
        Undecided::OutOfMemory
    }
}

impl<T: Drop> From<AllocFailed<T>> for Undecided {
    ghost from_gives = { λ _ e. e ≡ OutOfMemory };

    fn from(_e: AllocFailed<T>) -> Undecided {
        Undecided::OutOfMemory
    }
}
