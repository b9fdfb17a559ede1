//! Laws over the definitions, each the contract of a function that does nothing.

ghost use Rattle.std.specs.Prelude.{◌≡◌, ℕ, Some, None};
ghost use Rattle.aml_terms.specs.Trees.{Trees};
ghost use Rattle.aml_generation.specs.Generation.{taken};
ghost use Rattle.aml_generation.specs.Candidates.{address_told};

/// States that the address that is taken is that of the first device that tells one, of those directly in a scope of the system bus, in
/// the order in which the scopes begin; that terms that tell none stay as they are; and that those without their address tell 0 there, and
/// stay as they are.
pub fn address_is_that_of_the_first_device_that_tells_one()
    ensures first { (terms : Trees) → (taken terms).0 ≡ address_told terms }
    ensures none { (terms : Trees) → (taken terms).0 ≡ None → (taken terms).1 ≡ terms }
    ensures zeros { (terms : Trees) (address : ℕ) → (taken terms).0 ≡ Some address → taken (taken terms).1 ≡ (Some 0, (taken terms).1) }
{}
