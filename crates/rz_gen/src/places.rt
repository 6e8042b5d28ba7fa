// Where the parts of the generated code stand.

ghost use Rattle.std.specs.Prelude.{◌≡◌, ◌≤◌};
ghost use Rattle.rz_gen.specs.Places.{function_at as address_of_function, head_length as length_of_head, head_size as size_of_head};

/// The address of the code.
pub const CODE_AT: u32 = 0x40_1000;

// The bytes of a function.
const FUNCTION_SIZE: u32 = 16;

/// The bytes of the head, without those that fill it.
pub fn head_length(n: u32) -> u32
    requires { n ≤ 4000 }
    ensures { result ≡ length_of_head n }
{
    31 + 5 * n
}

/// The bytes of the head, filled up to a multiple of 16.
pub fn head_size(n: u32) -> u32
    requires { n ≤ 4000 }
    ensures { result ≡ size_of_head n }
{
    (head_length(n) + 15) / 16 * 16
}

/// The address of function `j`, counted from 0; that of the table for `n`.
pub fn function_at(n: u32, j: u32) -> u32
    requires few { n ≤ 4000 }
    requires inside { j ≤ n }
    ensures { result ≡ address_of_function n j }
{
    CODE_AT + head_size(n) + FUNCTION_SIZE * j
}
