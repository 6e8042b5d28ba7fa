ghost use Rattle.std.specs.Prelude.{◌≡◌, ◌<◌};
ghost use Rattle.rz_isa.specs.Spelling.{bit_w as w_of, bit_r as r_of, bit_x as x_of, bit_b as b_of};

// The bits of REX, all clear where there is none (Intel SDM, volume 2, section 2.2.1.2).

pub fn bit_w(rex: Option<u8>) -> u8
    ensures { result ≡ w_of rex }
{
    match rex {
        None => 0,
        Some(b) => b % 16 / 8,
    }
}

pub fn bit_r(rex: Option<u8>) -> u8
    ensures value { result ≡ r_of rex }
    ensures small { result < 2 }
{
    match rex {
        None => 0,
        Some(b) => b % 16 / 4 % 2,
    }
}

pub fn bit_x(rex: Option<u8>) -> u8
    ensures value { result ≡ x_of rex }
    ensures small { result < 2 }
{
    match rex {
        None => 0,
        Some(b) => b % 16 / 2 % 2,
    }
}

pub fn bit_b(rex: Option<u8>) -> u8
    ensures value { result ≡ b_of rex }
    ensures small { result < 2 }
{
    match rex {
        None => 0,
        Some(b) => b % 16 % 2,
    }
}
