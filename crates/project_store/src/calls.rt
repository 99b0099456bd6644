ghost use Rattle.std.specs.Prelude.{◌↔◌, IsTrue, Contains};

/// The calls on an object, numbered from 1, and the numbers of those that shall fail.
#[derive(Debug, Drop)]
pub(crate) struct Calls {
    made: u64,
    failing: Vec<u32>,
}

impl Calls {
    ghost use Rattle.project_store.specs.Calls.{IsFresh, NextFails, CountsCall};

    pub(crate) fn new(failing: Vec<u32>) -> Calls
        ensures { IsFresh failing.items result }
    {
        Calls { made: 0, failing }
    }

    /// Counts the call that begins, and says whether it shall fail.
    pub(crate) fn next_fails(&mut self) -> bool
        ensures fails { IsTrue result ↔ NextFails self.old }
        ensures counts { CountsCall self.old self.new }
    {
        self.made = self.made.saturating_add(1);
        is_listed(&self.failing, self.made)
    }
}

fn is_listed(numbers: &[u32], number: u64) -> bool
    ensures { IsTrue result ↔ Contains numbers.now number }
{
    match u32::try_from(number) {
        Ok(number) => numbers.contains(&number),
        Err(_) => false,
    }
}
