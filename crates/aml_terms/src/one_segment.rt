//! Paths of one segment.

ghost use Rattle.std.specs.Prelude.{◌≡◌};
ghost use Rattle.aml_terms.specs.OneSegment.{is_alone, is_system_bus, is_beside};

use crate::term::Path;

impl Path {
    /// Tells whether it is the path of the system bus, `\_SB_` (ACPI 6.5, 5.3.1).
    pub fn is_system_bus(&self) -> bool
        ensures { result ≡ is_system_bus self.now }
    {
        self.root && self.parents == 0 && is_alone(b"_SB_", self.segments.as_slice())
    }

    /// Tells whether it is the path of the name `segment` beside the one who asks (ACPI 6.5, 20.2.2).
    pub fn is_beside(&self, segment: &[u8; 4]) -> bool
        ensures { result ≡ is_beside segment.now self.now }
    {
        !self.root && self.parents == 0 && is_alone(segment, self.segments.as_slice())
    }
}

fn is_alone(segment: &[u8; 4], segments: &[[u8; 4]]) -> bool
    ensures { result ≡ is_alone segment.now segments.now }
{
    match segments {
        [first] => first == segment,
        _ => false,
    }
}
