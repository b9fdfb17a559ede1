ghost use Rattle.std.specs.Prelude.{◌≡◌, ◌+◌, ◌<◌, ◌^◌};

/// A value that stands at the front of a text, and how many bytes it has there.
#[derive(Drop)]
pub(crate) struct Found<T> {
    pub(crate) value: T,
    pub(crate) size: usize,
}

impl<T> Found<T> {
    /// Returns the value as one that stands behind `count` bytes more, which are counted with its own.
    pub(crate) fn behind(self, count: usize) -> Found<T>
        requires { count + self.size < 2 ^ 64 }
        ensures value { result.value ≡ self.value }
        ensures size { result.size ≡ count + self.size }
    {
        Found {
            value: self.value,
            size: count + self.size,
        }
    }
}
