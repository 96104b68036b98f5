// The calls that are to fail.
ghost use Rattle.std.specs.Prelude.{◌≡◌};
ghost use Rattle.px_site.specs.Cause.{one_more};
ghost use Rattle.px_memsite.specs.Failures.{failure_of};

/// A call that is to fail. All calls of a site are counted, from 0.
#[derive(Clone, Copy, Debug)]
pub struct Failure {
    /// The call's number.
    pub call: u64,
    /// How many of its bytes go through, of a write or a `tell`.
    pub bytes: u64,
}

/// The calls that are to fail, and how many there were so far.
#[derive(Drop)]
pub struct Schedule {
    pub failures: Vec<Failure>,
    pub calls: u64,
}

impl Schedule {
    /// Counts a call. Where it is to fail, it answers how many of its bytes go through.
    pub fn next(&mut self) -> Option<u64>
        ensures failure { result ≡ failure_of self.old.failures.items self.old.calls }
        ensures failures { self.new.failures ≡ self.old.failures }
        ensures calls { self.new.calls ≡ one_more self.old.calls }
    {
        let call = self.calls;
        self.calls = call.saturating_add(1);
        failure_of(&self.failures, call)
    }
}

fn failure_of(failures: &[Failure], call: u64) -> Option<u64>
    ensures { result ≡ failure_of failures.now call }
{
    for failure in failures {
        if failure.call == call {
            return Some(failure.bytes);
        }
    }
    None
}
