// What is remembered of modules that were searched from.
ghost use Rattle.std.specs.Prelude.{◌≡◌, ℕ, ◌⊎◌, None, Some, Option, slice_index_or};

/// A memory of the module that a search from another one ended at. It may forget, and makes nothing up.
pub trait Memory {
    // What it answers of a module.
    ghost known: { Self → ℕ → Option ℕ };

    fn recall(&self, t: usize) -> Option<usize>
        ensures { result ≡ known self.now t };

    fn keep(&mut self, t: usize, s: usize)
        ensures { (u : ℕ) → (known self.new u ≡ known self.old u) ⊎ ((u ≡ t) × (known self.new u ≡ Some s)) };
}

/// Remembers nothing: every module is searched from anew.
#[derive(Clone, Copy)]
pub struct Forgetful;

impl Memory for Forgetful {
    ghost known = { λ m t. None };

    fn recall(&self, _t: usize) -> Option<usize> {
        None
    }

    fn keep(&mut self, _t: usize, _s: usize) {}
}

/// Remembers every search, in a place for each module.
#[derive(Drop)]
pub struct Remembered<'a> {
    found: &'a mut [Option<usize>],
}

impl<'a> Remembered<'a> {
    /// Nothing is known yet of the modules that have a place.
    pub fn new(found: &'a mut [Option<usize>]) -> Remembered<'a>
        ensures { (t : ℕ) → slice_index_or result.found.now t None ≡ None }
    {
        found.fill(None);
        Remembered { found }
    }
}

impl<'a> Memory for Remembered<'a> {
    ghost known = { λ m t. slice_index_or m.found.now t None };

    fn recall(&self, t: usize) -> Option<usize> {
        self.found.get(t).copied().flatten()
    }

    fn keep(&mut self, t: usize, s: usize) {
        // By number: the check proves this alone, and `get_mut` not.
        if t < self.found.len() {
            self.found[t] = Some(s);
        }
    }
}
