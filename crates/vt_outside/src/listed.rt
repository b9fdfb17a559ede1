ghost use Rattle.std.specs.Prelude.{◌↔◌, Contains, IsTrue};

/// Tells whether `fails`, the numbers of the calls that fail, lists the number `call`.
pub fn is_listed(fails: &[u32], call: u64) -> bool
    ensures { IsTrue result ↔ Contains fails.now call }
{
    fails.iter().any(|number| u64::from(*number) == call)
}
