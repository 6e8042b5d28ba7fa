//! Laws of accepted files.

ghost use Rattle.std.specs.Prelude.{◌≡◌, ◌<◌, ℕ, List, None};
ghost use Rattle.std.specs.List.{AllByRecursion};
ghost use Rattle.rz_elf.specs.Elf.{fault_of, image_of};
ghost use Rattle.rz_elf.specs.PlainImage.{IsPlainImage};

/// What is loaded of an accepted file is plain: no region is both written and executed, and all lie at low addresses.
pub fn accepted_files_are_plain()
    ensures { (x : List ℕ) → AllByRecursion (λ b. b < 256) x → fault_of x ≡ None → IsPlainImage (image_of x) }
{}
