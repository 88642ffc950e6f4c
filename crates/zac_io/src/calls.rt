//! Calls on the doubles over memory.
ghost use Rattle.std.specs.Prelude.{◌≡◌};

use zac_gates::List;

// How many calls were made, and the numbers of those that fail. The first call has the number 1.
#[derive(Drop)]
pub(crate) struct Calls {
    pub(crate) made: u64,
    pub(crate) failing: List<u64>,
}

impl Calls {
    ghost use Rattle.zac_io.specs.Calls.{fails_next, after_call};

    // Counts a call, and answers whether it is to fail.
    pub(crate) fn fails(&mut self) -> bool
        ensures value { result ≡ fails_next self.old }
        ensures counted { self.new ≡ after_call self.old }
    {
        let call = self.made.saturating_add(1);
        self.made = call;
        self.failing.as_slice().contains(&call)
    }
}
