ghost use Rattle.std.specs.Prelude.{◌≡◌, ◌++◌, ◌∷◌, [], ◌<◌, length, take_while, None};
ghost use Rattle.rz_isa.specs.Spelling.{is_prefix as is_prefix_byte, is_rex as is_rex_byte, times as times_among};
ghost use Rattle.rz_isa.specs.Reading.{rex_at, behind_rex, skip_while, opcode_at as opcode_of_bytes};
ghost use Rattle.rz_isa.specs.Decoded.{least_rex as least_rex_of, last_opcode as last_opcode_of, opcode_for as opcode_by_row, front_by};
ghost use Rattle.rz_decode.specs.Calls.Views.{opcode_view, opcode_option, front_view};

use rz_isa::{F3Rule, OpMap, Row, Size};

/// An opcode with its map, and the bytes behind it.
#[derive(Clone, Copy)]
pub struct Opcode<'a> {
    pub map: OpMap,
    pub byte: u8,
    pub rest: &'a [u8],
}

/// What stands at the front of bytes: legacy prefixes, REX and the opcode
/// (Intel SDM, volume 2, figure 2-1).
#[derive(Clone, Copy)]
pub struct Front<'a> {
    pub prefixes: &'a [u8],
    pub rex: Option<u8>,
    pub opcode: Opcode<'a>,
}

fn is_prefix(b: u8) -> bool
    ensures { result ≡ is_prefix_byte b }
{
    matches!(b, 0x2e | 0x3e | 0x66 | 0x67 | 0xf0 | 0xf2 | 0xf3)
}

fn is_rex(b: u8) -> bool
    ensures { result ≡ is_rex_byte b }
{
    matches!(b, 0x40..=0x4f)
}

fn prefix_count(bytes: &[u8]) -> usize
    ensures { result ≡ length (take_while is_prefix_byte bytes.now) }
{
    bytes.iter().take_while(|b| is_prefix(**b)).count()
}

/// The legacy prefixes, and what stands behind them.
#[tactic(auto, using(crate::specs::Laws::Prefixes::drop_passed))]
pub fn split_prefixes(bytes: &[u8]) -> (&[u8], &[u8])
    ensures front { result.0.now ≡ take_while is_prefix_byte bytes.now }
    ensures rest { result.1.now ≡ skip_while is_prefix_byte bytes.now }
{
    bytes.split_at(prefix_count(bytes))
}

/// REX, and what stands behind it.
pub fn split_rex(bytes: &[u8]) -> (Option<u8>, &[u8])
    ensures rex { result.0 ≡ rex_at bytes.now }
    ensures rest { result.1.now ≡ behind_rex bytes.now }
{
    match bytes {
        [b, rest @ ..] => {
            if is_rex(*b) {
                (Some(*b), rest)
            } else {
                (None, bytes)
            }
        }
        [] => (None, bytes),
    }
}

/// The opcode at the front of the bytes; `None` exactly where they end before it.
pub fn opcode_at(bytes: &[u8]) -> Option<Opcode<'_>>
    ensures { opcode_option result ≡ opcode_of_bytes bytes.now }
{
    match bytes {
        [] => None,
        [0x0f] => None,
        [0x0f, byte, rest @ ..] => Some(Opcode {
            map: OpMap::Two,
            byte: *byte,
            rest,
        }),
        [byte, rest @ ..] => Some(Opcode {
            map: OpMap::One,
            byte: *byte,
            rest,
        }),
    }
}

/// How often the byte stands among the prefixes.
pub fn times(b: u8, prefixes: &[u8]) -> usize
    ensures { result ≡ times_among b prefixes.now }
{
    prefixes.iter().filter(|x| **x == b).count()
}

// ---- bytes that end before their opcode

fn least_rex(size: Size) -> Option<u8>
    ensures { result ≡ least_rex_of size }
{
    match size {
        Size::WQ => Some(0x48),
        _ => None,
    }
}

fn last_opcode(row: &Row) -> u8
    requires { last_opcode_of row.now < 256 }
    ensures { result ≡ last_opcode_of row.now }
{
    (u16::from(row.opcode) + u16::from(row.span)).saturating_sub(1) as u8
}

// The row's last opcode, in the map that the bytes have begun.
fn unfinished_opcode<'a>(row: &Row, bytes: &'a [u8]) -> Opcode<'a>
    requires last { last_opcode_of row.now < 256 }
    requires ended { opcode_of_bytes bytes.now ≡ None }
    ensures { opcode_view result ≡ opcode_by_row row.now bytes.now }
{
    Opcode {
        map: if bytes.is_empty() {
            row.map
        } else {
            OpMap::Two
        },
        byte: last_opcode(row),
        rest: &[],
    }
}

/// The front by one row of bytes that end before their opcode: the least that the row asks for
/// stands where they have ended. `rest` is what stands behind the prefixes, and `with_f3` the
/// prefixes and F3 behind them.
pub fn unfinished_front<'a>(
    row: &Row,
    prefixes: &'a [u8],
    with_f3: &'a [u8],
    rest: &'a [u8],
) -> Front<'a>
    requires last { last_opcode_of row.now < 256 }
    requires ended { opcode_of_bytes (behind_rex rest.now) ≡ None }
    requires f3 { with_f3.now ≡ prefixes.now ++ (0xf3 ∷ []) }
    ensures { front_view result ≡ front_by row.now prefixes.now rest.now }
{
    if rest.is_empty() {
        let misses_f3 = matches!(row.f3, F3Rule::Required) && times(0xf3, prefixes) == 0;
        return Front {
            prefixes: if misses_f3 { with_f3 } else { prefixes },
            rex: least_rex(row.size),
            opcode: unfinished_opcode(row, rest),
        };
    }
    let (rex, behind) = split_rex(rest);
    Front {
        prefixes,
        rex,
        opcode: unfinished_opcode(row, behind),
    }
}
