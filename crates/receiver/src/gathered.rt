ghost use Rattle.std.specs.Prelude.{◌≡◌, ◌<◌, [], ◌∷◌, ◌++◌, length};

use std::marker::Model;

// The most octets that any good frame has between its flags: header, 2,048 of information and four check octets.
const MOST: usize = 2056;

// The octets gathered since the last flag. It has all its memory from the start. The kit's `ArrayVec` clears by a write to each
// octet that it holds, and of an octet that is heard, a flag too, constant work is asked.
#[derive(Drop)]
pub struct Gathered {
    octets: [u8; MOST],
    count: usize,
}

impl Model for Gathered {
    ghost use Rattle.std.specs.Prelude.{◌≡◌, ℕ, ◌≤◌, List, length, take};

    ghost Value = { List ℕ };

    ghost view = { λ g. take g.count g.octets };

    ghost invariant = { λ g. (g.count ≤ 2056) × (length g.octets ≡ 2056) };
}

impl Gathered {
    pub fn new() -> Gathered
        ensures { result ≡ [] }
    {
        Gathered {
            octets: [0; MOST],
            count: 0,
        }
    }

    pub fn len(&self) -> usize
        ensures { result ≡ length self.now }
    {
        self.count
    }

    pub fn as_slice(&self) -> &[u8]
        ensures { result.now ≡ self.now }
    {
        &self.octets[..self.count]
    }

    pub fn push(&mut self, octet: u8)
        requires { length self.old < MOST }
        ensures { self.new ≡ self.old ++ octet ∷ [] }
    {
        self.octets[self.count] = octet;
        self.count += 1;
    }

    pub fn clear(&mut self)
        ensures { self.new ≡ [] }
    {
        self.count = 0;
    }
}
