//! How many workers share the jobs.

ghost use Rattle.std.specs.Prelude.{◌≡◌, ◌≤◌, ◌↔◌, IsSome, IfSome};

/// How many workers share the jobs: 1 to 64.
#[derive(Clone, Copy)]
pub struct Workers {
    number: u64,
    pub ghost at_least_one: { 1 ≤ number },
    pub ghost at_most_64: { number ≤ 64 },
}

impl Workers {
    pub fn new(n: u64) -> Option<Workers>
        ensures valid { IsSome result ↔ ((1 ≤ n) × (n ≤ 64)) }
        ensures value { IfSome result (λ workers. workers.number ≡ n) }
    {
        if 1 <= n && n <= 64 {
            Some(Workers { number: n })
        } else {
            None
        }
    }

    pub fn get(self) -> u64
        ensures value { result ≡ self.number }
        ensures least { 1 ≤ result }
        ensures most { result ≤ 64 }
    {
        self.number
    }
}
