// What is done with a byte.

ghost use Rattle.std.specs.Prelude.{◌≡◌};
ghost use Rattle.rz_image.specs.Run.{permits as permits_access};

use crate::perm::Perm;

/// The accesses, each of which has a permission of its own.
#[derive(Clone, Copy, PartialEq, Eq, Debug)]
pub enum Access {
    Execute,
    Write,
    Read,
}

impl Access {
    /// Whether a permission allows it.
    pub fn permitted(self, perm: Perm) -> bool
        ensures { result ≡ permits_access self perm }
    {
        match self {
            Access::Execute => perm.executes(),
            Access::Write => perm.writes(),
            Access::Read => perm.reads(),
        }
    }
}
