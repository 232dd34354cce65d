// Places that are lent out to be filled.
ghost use Rattle.std.specs.Prelude.{◌≡◌, ◌+◌, ◌<◌, ◌≤◌, length, slice_set};

// The places below `filled` are taken, and the others are free.
// A count beside lent places, and no Vec: a mask uses no memory but what it is handed.
#[derive(Drop)]
pub struct Collector<'a, T> {
    places: &'a mut [T],
    filled: usize,
    ghost ok: { filled ≤ length places.now },
}

impl<'a, T: Copy> Collector<'a, T> {
    ghost use Rattle.mask.specs.Collectors.{held, free, SameLoan};

    // An empty collector over the places.
    pub fn new(places: &'a mut [T]) -> Collector<'a, T>
        ensures places { result.places.now ≡ places.old }
        ensures loan { result.places.ghost_name ≡ places.entry.ghost_name }
        ensures filled { result.filled ≡ 0 }
    {
        Collector { places, filled: 0 }
    }

    pub fn free(&self) -> usize
        ensures { result ≡ free self.now }
    {
        self.places.len() - self.filled
    }

    pub(crate) fn push(&mut self, x: T)
        requires { self.old.filled < length (held self.old) }
        ensures places { held self.new ≡ slice_set (held self.old) self.old.filled x }
        ensures filled { self.new.filled ≡ self.old.filled + 1 }
        ensures loan { SameLoan self.old self.new }
    {
        let at = self.filled;
        self.places[at] = x;
        self.filled = at + 1;
    }
}
