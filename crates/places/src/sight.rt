// The types of the values in sight at a clause.
ghost use Rattle.std.specs.Prelude.{◌≡◌, ◌+◌, ◌<◌, ◌≤◌, [], ◌∷◌, ◌++◌, length};

use records::IN_SIGHT;

// The types of the values in sight, as the format's bytes: the first `count` of `bytes`. (No `ArrayVec`, which is not
// `Copy`.)
#[derive(Clone, Copy)]
pub struct SightTypes {
    pub bytes: [u8; IN_SIGHT],
    pub count: usize,
    ghost few: { count ≤ 16 },
    ghost room: { length bytes ≡ 16 },
}

impl SightTypes {
    ghost use Rattle.places.specs.Sight.{types_in};

    pub(crate) fn new() -> Self
        ensures { types_in result ≡ [] }
    {
        SightTypes {
            bytes: [0; IN_SIGHT],
            count: 0,
        }
    }

    pub(crate) fn push(&mut self, ty: u8)
        requires { length (types_in self.old) < 16 }
        ensures { types_in self.new ≡ types_in self.old ++ ty ∷ [] }
    {
        self.bytes[self.count] = ty;
        self.count += 1;
    }

    pub(crate) fn extend(&mut self, types: &[u8])
        requires { length (types_in self.old) + length types.now ≤ 16 }
        ensures { types_in self.new ≡ types_in self.old ++ types.now }
    {
        // one by one: compiled, `copy_from_slice` calls `memmove`; the library for C needs `memcpy` and `memset` alone
        for i in 0..types.len() {
            self.push(types[i]);
        }
    }

    pub fn as_slice(&self) -> &[u8]
        ensures value { result.now ≡ types_in self.now }
        ensures fits { length result.now ≤ 16 }
    {
        &self.bytes[..self.count]
    }
}
