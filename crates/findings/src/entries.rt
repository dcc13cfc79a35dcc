// The findings of one kind, at most N of them in fixed memory.
ghost use Rattle.std.specs.Prelude.{◌≡◌, ◌≤◌, ◌++◌, [], ⊤, length, map, take, option_to_list, Some};
ghost use Rattle.std.specs.Bool.{then_some};
ghost use Rattle.findings.specs.Entries.{filled};

use std::alloc::AllocError;
use std::marker::Model;

// At most N findings. A contract sees them as a list.
#[derive(Copy)]
pub struct Entries<F, const N: usize> {
    // The findings, and unused entries behind them.
    entries: [Option<F>; N],
    count: usize,
}

impl<F, const N: usize> Model for Entries<F, N> {
    ghost use Rattle.std.specs.Prelude.{List, length};
    ghost use Rattle.std.specs.Option.{some_prefix};
    ghost use Rattle.findings.specs.Entries.{filled, Holds};

    ghost Value = { List F };

    ghost view = { λ a. some_prefix a.entries };

    ghost invariant = { λ a. Holds N a.entries a.count };

    ghost inverse = { λ l. record { entries = filled N l; count = length l } };
}

impl<F: Copy, const N: usize> Clone for Entries<F, N> {
    ghost is_clone = { λ x y. y ≡ x };

    ghost is_infallible = { λ _. ⊤ };

    fn clone(&self) -> Result<Self, AllocError> {
        Ok(*self)
    }
}

impl<F: Copy, const N: usize> Entries<F, N> {
    // No findings.
    pub fn new() -> Entries<F, N>
        ensures { result ≡ [] }
    {
        Entries {
            entries: [None; N],
            count: 0,
        }
    }

    // Puts a finding, if there is one, behind the others, where there is room.
    pub fn add(&mut self, finding: Option<F>)
        ensures { self.new ≡ take N (self.old ++ option_to_list finding) }
    {
        if let Some(found) = finding
            && self.count < N
        {
            self.entries[self.count] = Some(found);
            self.count += 1;
        }
    }

    // Puts the finding of a test that fires behind the others, where there is room.
    pub fn add_if(&mut self, fires: bool, finding: F)
        ensures { self.new ≡ take N (self.old ++ option_to_list (then_some fires finding)) }
    {
        self.add(fires.then_some(finding))
    }

    // How many findings there are.
    pub fn len(self) -> usize
        ensures value { result ≡ length self }
        ensures fits { result ≤ N }
    {
        self.count
    }

    // The findings, without the unused entries.
    pub fn found(&self) -> &[Option<F>]
        ensures { result.now ≡ map Some self.now }
    {
        &self.entries[..self.count]
    }

    // The findings, and unused entries behind them.
    pub fn entries(self) -> [Option<F>; N]
        ensures { result ≡ filled N self }
    {
        self.entries
    }
}
