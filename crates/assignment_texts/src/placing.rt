// Numbers in lent bytes, three to a letter: none at first, then three at a letter's place.
ghost use Rattle.std.specs.Prelude.{◌≡◌, [], ◌∷◌, ◌+◌, ◌*◌, ◌≤◌, length, replicate};
ghost use Rattle.specification.specs.AssignmentTexts.{put_three};

// No letter has numbers.
pub fn clear(so: &mut [u8])
    ensures { so.new ≡ replicate (length so.old) 127 }
{
    so.fill(127);
}

// Three numbers at the place of a letter.
pub fn put_three(so: &mut [u8], n: usize, x: u8, y: u8, z: u8)
    requires { 3 * n + 3 ≤ length so.old }
    ensures { so.new ≡ put_three n (x ∷ y ∷ z ∷ []) so.old }
{
    let i = 3 * n;
    so[i] = x;
    so[i + 1] = y;
    so[i + 2] = z;
}
